// A term entered: after the last one, in the chain of its key.
#![tactic(auto)]

ghost use Rattle.std.specs.Prelude.{◌≡◌, ◌+◌, ◌*◌, ◌≤◌, ◌<◌, length};
ghost use Rattle.std.proofs.Math.Seq.{paste};
ghost use Rattle.terms.specs.Buffers.{BUCKETS, LEAST, first_in, count_in};
ghost use Rattle.terms.specs.Chains.{Holds};
ghost use Rattle.term_entry.specs.TermEntry.{put_term, put_chain, enter_term, enter_runs};

use terms::{BUCKET, CHAINS, COUNT, FIRSTS, HEADS, VALUES, count, first};

fn copy_runs(runs: &mut [u64], from: usize, list: &[u64], n: usize)
    requires { (from + n ≤ length runs.old) × (n ≤ length list.now) }
    ensures { runs.new ≡ paste runs.old from list.now n }
{
    for i in 0..n {
        runs[from + i] = list[i];
    }
}

fn put_term(terms: &mut [u32], t: usize, h: u32, v: u32, end: u32)
    requires { LEAST + (t + 1) * 4 ≤ length terms.old }
    ensures { terms.new ≡ put_term terms.old t h v end }
{
    stores::put_u32(terms, HEADS + t * 4, h);
    stores::put_u32(terms, VALUES + t * 4, v);
    stores::put_u32(terms, FIRSTS + (t + 1) * 4, end);
}

fn put_chain(terms: &mut [u32], t: usize, bucket: usize)
    requires { (LEAST + (t + 1) * 4 ≤ length terms.old) × (t < 16384) × (bucket < BUCKETS) }
    ensures { terms.new ≡ put_chain terms.old t bucket }
{
    let old = terms[BUCKET + bucket];
    stores::put_u32(terms, CHAINS + t * 4, old);
    stores::put_u32(terms, BUCKET + bucket, numbers::short_size(t + 1));
    stores::put_u32(terms, COUNT, numbers::short_size(t + 1));
}

// the term after the last one, in the chain of its key
pub fn enter(
    terms: &mut [u32],
    runs: &mut [u64],
    bucket: usize,
    list: &[u64],
    n: usize,
    h: u32,
    v: u32,
)
    requires { Holds terms.old runs.old × (count_in terms.old < 16384) × (first_in terms.old (count_in terms.old) + n ≤ 65536) × (LEAST + (count_in terms.old + 1) * 4 ≤ length terms.old) × (first_in terms.old (count_in terms.old) + n ≤ length runs.old) × (n ≤ length list.now) × (bucket < BUCKETS) }
    ensures { (terms.new ≡ enter_term terms.old h v n bucket) × (runs.new ≡ enter_runs terms.old runs.old list.now n) }
{
    let t = count(terms);
    let from = first(terms, t);
    copy_runs(runs, from, list, n);
    put_term(terms, t, h, v, numbers::short_size(from + n));
    put_chain(terms, t, bucket);
}
