// The term pool's layout: terms over runs of (child, count) in two buffers; a term's number is its place.
#![tactic(auto)]

ghost use Rattle.std.specs.Prelude.{◌≡◌, ◌+◌, ◌*◌, ◌/◌, ◌%◌, ◌≤◌, ◌<◌, length};
ghost use Rattle.terms.specs.Buffers.{COUNT, HEADS, VALUES, LEAST, first_in, head_in, value_in, count_in};
ghost use Rattle.terms.specs.Emptying.{emptied};

// the numbers of `terms`: the chains' last terms, the count, then four a term, and the end of the runs
pub const BUCKET: usize = 0;

pub const BUCKETS: usize = 1024;

pub const COUNT: usize = BUCKET + BUCKETS;

// where the first term's four numbers stand
pub const FIRSTS: usize = COUNT + 1;

pub const HEADS: usize = FIRSTS + 1;

pub const VALUES: usize = FIRSTS + 2;

pub const CHAINS: usize = FIRSTS + 3;

// how many numbers no term needs, and how many a whole pool
pub const LEAST: usize = FIRSTS + 1;

pub const NUMBERS: usize = LEAST + 4 * 16384;

// ---- a run
pub fn child(r: u64) -> usize
    ensures { (result ≡ r % 16384) × (result < 16384) }
{
    numbers::size_u64(r % 16384)
}

pub fn times(r: u64) -> u64
    ensures { result ≡ r / 16384 }
{
    r / 16384
}

// ---- a term
pub fn count(terms: &[u32]) -> usize
    requires { COUNT < length terms.now }
    ensures { (result ≡ count_in terms.now) × (result < 4294967296) }
{
    stores::at_u32(terms, COUNT)
}

pub fn first(terms: &[u32], t: usize) -> usize
    requires { LEAST + t * 4 ≤ length terms.now }
    ensures { (result ≡ first_in terms.now t) × (result < 4294967296) }
{
    stores::at_u32(terms, FIRSTS + t * 4)
}

pub fn head(terms: &[u32], t: usize) -> u32
    requires { HEADS + t * 4 < length terms.now }
    ensures { result ≡ head_in terms.now t }
{
    terms[HEADS + t * 4]
}

pub fn value(terms: &[u32], t: usize) -> u32
    requires { VALUES + t * 4 < length terms.now }
    ensures { result ≡ value_in terms.now t }
{
    terms[VALUES + t * 4]
}

// ---- the empty pool
// No term, whatever the buffer held.
pub fn empty(terms: &mut [u32])
    requires { LEAST ≤ length terms.old }
    ensures { terms.new ≡ emptied terms.old }
{
    terms[..LEAST].fill(0);
}
