// The term of an action: "children of commutative kinds, sorted", joined and interned.
#![tactic(auto)]

ghost use Rattle.std.specs.Prelude.{◌≡◌, map, ◌+◌, ◌-◌, ◌^◌, ◌≤◌, ◌<◌, length, get_or};
ghost use Rattle.spec.specs.Bytes.{sum};
ghost use Rattle.spec.specs.Pool.{structural_cmp, is_greater};
ghost use Rattle.query.specs.Settings.{limits_of};
ghost use Rattle.pools.specs.Pool.{RunsBelow};
ghost use Rattle.terms.specs.Buffers.{count_in, part, unpack, pool_of};
ghost use Rattle.terms.specs.Chains.{Holds, Rooms};
ghost use Rattle.joining.specs.Joining.{over};
ghost use Rattle.action_term.specs.Sorting.{insert_number, sort_numbers, within, ordered_in};
ghost use Rattle.action_term.specs.Results.{ActionResult};

use query::Limits;

fn is_greater(terms: &[u32], runs: &[u64], a: usize, b: usize) -> bool
    requires { Holds terms.now runs.now × (a < count_in terms.now) × (b < count_in terms.now) }
    ensures { result ≡ is_greater (structural_cmp (length (pool_of terms.now runs.now)) (pool_of terms.now runs.now) a b) }
{
    term_order::structural_cmp(terms, runs, a, b).is_gt()
}

// the run at i moved behind the runs before n that come before it
fn insert(terms: &[u32], runs: &[u64], list: &mut [u64], i: usize, n: usize)
    requires { Holds terms.now runs.now × (i < n) × (n ≤ length list.old) × RunsBelow (count_in terms.now) (map unpack (part list.old i (n - i))) }
    ensures { list.new ≡ within list.old i n (insert_number (pool_of terms.now runs.now) (get_or list.old i 0) (part list.old (i + 1) (n - (i + 1)))) }
{
    let x = list[i];
    for j in i..n - 1 {
        let y = list[j + 1];
        if !is_greater(terms, runs, terms::child(x), terms::child(y)) {
            stores::put_u64(list, j, x);
            return;
        }
        stores::put_u64(list, j, y);
    }
    stores::put_u64(list, n - 1, x);
}

// the first n runs of list in the structural order of their children
fn sort(terms: &[u32], runs: &[u64], list: &mut [u64], n: usize)
    requires { Holds terms.now runs.now × (n ≤ length list.old) × RunsBelow (count_in terms.now) (map unpack (part list.old 0 n)) }
    ensures { list.new ≡ over (sort_numbers (pool_of terms.now runs.now) (part list.old 0 n)) list.old }
{
    for i in (0..n).rev() {
        insert(terms, runs, list, i, n);
    }
}

// children of commutative kinds are sorted, others keep their order
fn order_children(terms: &[u32], runs: &[u64], list: &mut [u64], n: usize, commutative: bool)
    requires { Holds terms.now runs.now × (n ≤ length list.old) × RunsBelow (count_in terms.now) (map unpack (part list.old 0 n)) }
    ensures { list.new ≡ over (ordered_in commutative (pool_of terms.now runs.now) list.old n) list.old }
{
    if commutative {
        sort(terms, runs, list, n);
    }
}

// The term of an action: operation op over the first n runs of list.
pub fn intern_action_result(
    lim: Limits,
    terms: &mut [u32],
    runs: &mut [u64],
    list: &mut [u64],
    n: usize,
    op: u32,
    commutative: bool,
) -> Option<usize>
    requires { Holds terms.old runs.old × (n ≤ length list.old) × RunsBelow (count_in terms.old) (map unpack (part list.old 0 n)) × (sum (part list.old 0 n) < 2 ^ 64) × (op < 64) × Rooms (limits_of lim) terms.old runs.old }
    ensures { ActionResult (limits_of lim) terms.old runs.old list.old n op commutative terms.new runs.new list.new result }
{
    order_children(terms, runs, list, n, commutative);
    let m = joining::join_runs(list, n);
    interning::intern(lim, terms, runs, list, m, op, 0)
}
