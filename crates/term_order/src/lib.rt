// "`structural_cmp` must order as it does on the expanded lists": on the terms of a pool, with no list expanded.
#![tactic(auto)]

ghost use Rattle.std.specs.Prelude.{◌≡◌, ◌≢◌, ◌+◌, ◌-◌, ◌^◌, ◌≤◌, ◌<◌, length, get_or};
ghost use Rattle.spec.specs.Bytes.{sum};
ghost use Rattle.spec.specs.Pool.{structural_cmp};
ghost use Rattle.terms.specs.Buffers.{head_in, value_in, count_in, part, pool_of};
ghost use Rattle.terms.specs.Chains.{Holds};
ghost use Rattle.term_order.specs.Comparing.{times_of, head_child, apart_numbers, diff_numbers, Differs, order_of};
ghost use Rattle.term_order.specs.Steps.{Steps};

use std::cmp::Ordering;

// what decides between two terms: their heads, or the first children that differ; three ways, and none of them an error, so no Result
#[derive(Clone, Copy)]
enum Step {
    Before,
    After,
    RunsBelow(usize, usize),
}

#[derive(Clone, Copy)]
struct Children {
    left: usize,
    right: usize,
}

// how long the child list of the runs from i to before end is when it is expanded
fn counted(runs: &[u64], from: usize, end: usize) -> u64
    requires { (from ≤ end) × (end ≤ length runs.now) × (sum (part runs.now from (end - from)) < 2 ^ 64) }
    ensures { result ≡ times_of (part runs.now from (end - from)) }
{
    let mut n = 0u64;
    for i in from..end {
        n += terms::times(runs[i]);
    }
    n
}

fn child_at(runs: &[u64], i: usize, end: usize) -> usize
    requires { end ≤ length runs.now }
    ensures { result ≡ head_child (part runs.now i (end - i)) }
{
    if i < end { terms::child(runs[i]) } else { 0 }
}

// the first children that differ where the runs at i and j do
fn apart(runs: &[u64], i: usize, m: usize, j: usize, n: usize) -> Children
    requires { (i < m) × (m ≤ length runs.now) × (j < n) × (n ≤ length runs.now) }
    ensures { Differs result (apart_numbers (get_or runs.now i 0) (part runs.now (i + 1) (m - (i + 1))) (get_or runs.now j 0) (part runs.now (j + 1) (n - (j + 1)))) }
{
    let a = terms::child(runs[i]);
    let b = terms::child(runs[j]);
    if a != b {
        return Children { left: a, right: b };
    }
    if terms::times(runs[i]) < terms::times(runs[j]) {
        return Children {
            left: child_at(runs, i + 1, m),
            right: b,
        };
    }
    Children {
        left: a,
        right: child_at(runs, j + 1, n),
    }
}

// the first children that differ in the runs from i0 to before m and from j0 to before n
fn differ(runs: &[u64], i0: usize, m: usize, j0: usize, n: usize) -> Children
    requires { (m ≤ length runs.now) × (n ≤ length runs.now) }
    ensures { Differs result (diff_numbers (part runs.now i0 (m - i0)) (part runs.now j0 (n - j0))) }
{
    let mut j = j0;
    for i in i0..m {
        if j >= n {
            return Children { left: 0, right: 0 };
        }
        if runs[i] != runs[j] {
            return apart(runs, i, m, j, n);
        }
        j += 1;
    }
    Children { left: 0, right: 0 }
}

// of two different terms with the same head and value
fn compare_runs(terms: &[u32], runs: &[u64], a: usize, b: usize) -> Step
    requires { Holds terms.now runs.now × (a < count_in terms.now) × (b < count_in terms.now) × (a ≢ b) × (head_in terms.now a ≡ head_in terms.now b) × (value_in terms.now a ≡ value_in terms.now b) }
    ensures { Steps terms.now runs.now a b result }
{
    let i = terms::first(terms, a);
    let m = terms::first(terms, a + 1);
    let j = terms::first(terms, b);
    let n = terms::first(terms, b + 1);
    let k = counted(runs, i, m);
    let l = counted(runs, j, n);
    if k < l {
        return Step::Before;
    }
    if l < k {
        return Step::After;
    }
    let d = differ(runs, i, m, j, n);
    Step::RunsBelow(d.left, d.right)
}

// of two different terms
fn compare_step(terms: &[u32], runs: &[u64], a: usize, b: usize) -> Step
    requires { Holds terms.now runs.now × (a < count_in terms.now) × (b < count_in terms.now) × (a ≢ b) }
    ensures { Steps terms.now runs.now a b result }
{
    let h = terms::head(terms, a);
    let g = terms::head(terms, b);
    if h < g {
        return Step::Before;
    }
    if g < h {
        return Step::After;
    }
    let v = terms::value(terms, a);
    let w = terms::value(terms, b);
    if v < w {
        return Step::Before;
    }
    if w < v {
        return Step::After;
    }
    compare_runs(terms, runs, a, b)
}

// From two terms to the first children that differ, until heads decide
pub fn structural_cmp(terms: &[u32], runs: &[u64], x: usize, y: usize) -> Ordering
    requires { Holds terms.now runs.now × (x < count_in terms.now) × (y < count_in terms.now) }
    ensures { result ≡ order_of (structural_cmp (count_in terms.now) (pool_of terms.now runs.now) x y) }
{
    if x == y {
        return Ordering::Equal;
    }
    let mut a = x;
    let mut b = y;
    // no range: down to the first children that differ
    loop {
        let s = compare_step(terms, runs, a, b);
        match s {
            Step::Before => {
                return Ordering::Less;
            }
            Step::After => {
                return Ordering::Greater;
            }
            Step::RunsBelow(c, d) => {
                a = c;
                b = d;
            }
        }
    }
}
