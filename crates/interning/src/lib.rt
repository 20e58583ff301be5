// Interning: a node's term, found in the pool or entered within the limits.
#![tactic(auto)]

ghost use Rattle.std.specs.Prelude.{◌≡◌, ◌+◌, ◌*◌, ◌^◌, ◌≤◌, ◌<◌, length};
ghost use Rattle.spec.specs.Bytes.{sum};
ghost use Rattle.query.specs.Settings.{limits_of};
ghost use Rattle.pools.specs.Pool.{NodeValid};
ghost use Rattle.terms.specs.Buffers.{BUCKETS, count_in, part, node_of, node_in};
ghost use Rattle.terms.specs.Chains.{key_of, Holds, Rooms};
ghost use Rattle.interning.specs.Interning.{Tells, Sought, Interning};

use query::Limits;
use term_entry::enter;
use term_key::key;
use terms::{BUCKET, CHAINS, count, first, head, value};

// ---- a node against an entry
fn same_runs(runs: &[u64], from: usize, list: &[u64], n: usize) -> bool
    requires { (from + n ≤ length runs.now) × (n ≤ length list.now) }
    ensures { Tells result (part runs.now from n ≡ part list.now 0 n) }
{
    // no comparison of slices: along a long chain it takes half as long again
    for i in 0..n {
        if runs[from + i] != list[i] {
            return false;
        }
    }
    true
}

fn is_term(terms: &[u32], runs: &[u64], t: usize, list: &[u64], n: usize, h: u32, v: u32) -> bool
    requires { Holds terms.now runs.now × (t < count_in terms.now) × (n ≤ length list.now) }
    ensures { Tells result (node_in terms.now runs.now t ≡ node_of h v (part list.now 0 n)) }
{
    if head(terms, t) != h {
        return false;
    }
    if value(terms, t) != v {
        return false;
    }
    let from = first(terms, t);
    if first(terms, t + 1) - from != n {
        return false;
    }
    same_runs(runs, from, list, n)
}

// the node's number plus 1, along the chain of its key; 0 where it is not there
fn look_up(
    terms: &[u32],
    runs: &[u64],
    bucket: usize,
    list: &[u64],
    n: usize,
    h: u32,
    v: u32,
) -> usize
    requires { Holds terms.now runs.now × (n ≤ length list.now) × (bucket ≡ key_of h v (part list.now 0 n)) × (bucket < BUCKETS) }
    ensures { Sought terms.now runs.now (node_of h v (part list.now 0 n)) result }
{
    let mut t = stores::at_u32(terms, BUCKET + bucket);
    // no range: along the chain of the key
    while 0 < t {
        if is_term(terms, runs, t - 1, list, n, h, v) {
            return t;
        }
        t = stores::at_u32(terms, CHAINS + (t - 1) * 4);
    }
    0
}

// The term with head and operation h, value v and the n runs of list: found, or entered within the limits; None: refusal 13.
pub fn intern(
    lim: Limits,
    terms: &mut [u32],
    runs: &mut [u64],
    list: &[u64],
    n: usize,
    h: u32,
    v: u32,
) -> Option<usize>
    requires { Holds terms.old runs.old × NodeValid (count_in terms.old) (node_of h v (part list.now 0 n)) × (n ≤ length list.now) × (sum (part list.now 0 n) < 2 ^ 64) × Rooms (limits_of lim) terms.old runs.old }
    ensures { Interning (limits_of lim) terms.old runs.old list.now n h v terms.new runs.new result }
{
    let bucket = key(list, n, h, v);
    let found = look_up(terms, runs, bucket, list, n, h, v);
    if 0 < found {
        return Some(found - 1);
    }
    let t = count(terms);
    if t >= lim.terms {
        return None;
    }
    let from = first(terms, t);
    if from > lim.runs {
        return None;
    }
    if n > lim.runs - from {
        return None;
    }
    enter(terms, runs, bucket, list, n, h, v);
    Some(t)
}
