// The pair graph: from the queried pair on, pair after pair, the pairs that its actions join are entered.
#![tactic(auto)]

ghost use Rattle.std.specs.Prelude.{◌≡◌, map, ◌+◌, ◌*◌, ◌≤◌, ◌<◌, length, replicate};
ghost use Rattle.spec.specs.Bytes.{each};
ghost use Rattle.spec.specs.Image.{tables_of};
ghost use Rattle.spec.specs.Monomial.{classes, pair_of};
ghost use Rattle.spec.specs.Action.{structural, transports, cell_pairs, joins, skipped_at};
ghost use Rattle.spec.specs.Graph.{enter_all, build_from, build, skipped_in};
ghost use Rattle.skips.specs.Large as counts;
ghost use Rattle.laws.specs.Valid.{Valid};
ghost use Rattle.image.specs.Loaded.{Loaded};
ghost use Rattle.query.specs.Settings.{limits_of};
ghost use Rattle.arrays.specs.Arrays.{pairs_in};
ghost use Rattle.actions.specs.Place.{Stands, action_at};
ghost use Rattle.monomial_terms.specs.Terms.{TERMS, NUMBERS, held};
ghost use Rattle.ac_monomials.specs.Actions.{actions_at};
ghost use Rattle.entering.specs.Growing.{AllSmall, Graph, Grows};
ghost use Rattle.graph.specs.Building.{Builds};
ghost use Rattle.graph.specs.Ending.{AllPairs, Ends, skipped_from};

use ac_monomials::monomials;
use ac_repr::{Walk, first, next};
use actions::{State, count, left_class, right_class};
use arrays::{left_at, right_at};
use budget::Budget;
use entering::enter_pair;
use enumeration::{seek, start};
use image::Image;
use monomial_terms::class_at;
use numbers::size_u64;
use query::Limits;
use skipped::{is_large, skipped_at};

// Built in full: how many pairs, and the budget left; or cut short; both with the number of monomial pairs passed over.
#[derive(Clone, Copy)]
pub enum Built {
    All(usize, Budget, u64),
    Cut(u64),
}

// ---- structural actions
// The pairs that the action at v joins. Here and below: how many there are now; None: refusal 12.
fn enter_action(
    lim: Limits,
    s: &[u8],
    im: Image,
    v: State,
    graph: &mut [u16],
    n0: usize,
) -> Option<usize>
    requires { Loaded s.now im × Valid (tables_of s.now) × Stands (tables_of s.now) v × Graph (limits_of lim) im.classes n0 graph.old × AllSmall im.classes (action_at (tables_of s.now) v).pairs }
    ensures { Grows (limits_of lim) im.classes (enter_all (limits_of lim) (pairs_in im.classes graph.old n0) (action_at (tables_of s.now) v).pairs) graph.new result }
{
    let many = count(s, im, v);
    let mut n = n0;
    for k in 0..many {
        let l = left_class(s, im, v, k);
        let r = right_class(s, im, v, k);
        n = enter_pair(lim, im.classes, graph, n, l, r)?;
    }
    Some(n)
}

// The pairs that the structural actions of classes l and r join.
fn enter_actions(
    lim: Limits,
    s: &[u8],
    im: Image,
    l: usize,
    r: usize,
    graph: &mut [u16],
    n0: usize,
) -> Option<usize>
    requires { Loaded s.now im × Valid (tables_of s.now) × (l < im.classes) × (r < im.classes) × Graph (limits_of lim) im.classes n0 graph.old }
    ensures { Grows (limits_of lim) im.classes (enter_all (limits_of lim) (pairs_in im.classes graph.old n0) (each (λ a. a.pairs) (structural (tables_of s.now) l r))) graph.new result }
{
    let mut n = n0;
    let mut v = start(s, im, l, r);
    while let Some(w) = seek(s, im, l, r, v) {
        n = enter_action(lim, s, im, w, graph, n)?;
        v = w.after();
    }
    Some(n)
}

// ---- transports: "each row with each column whatever the plan"
// Class l with the class of each column.
fn enter_row(
    lim: Limits,
    w: usize,
    l: usize,
    right: &[u64],
    cols: usize,
    graph: &mut [u16],
    n0: usize,
) -> Option<usize>
    requires { (length right.now ≡ NUMBERS) × (cols ≤ TERMS) × Graph (limits_of lim) w n0 graph.old × AllSmall w (map (λ b. (l, b)) (classes (held cols right.now))) }
    ensures { Grows (limits_of lim) w (enter_all (limits_of lim) (pairs_in w graph.old n0) (map (λ b. (l, b)) (classes (held cols right.now)))) graph.new result }
{
    let mut n = n0;
    for j in 0..cols {
        let r = size_u64(class_at(right, j));
        n = enter_pair(lim, w, graph, n, l, r)?;
    }
    Some(n)
}

// The class of each row with the class of each column.
fn enter_cells(
    lim: Limits,
    w: usize,
    left: &[u64],
    rows: usize,
    right: &[u64],
    cols: usize,
    graph: &mut [u16],
    n0: usize,
) -> Option<usize>
    requires { (length left.now ≡ NUMBERS) × (rows ≤ TERMS) × (length right.now ≡ NUMBERS) × (cols ≤ TERMS) × Graph (limits_of lim) w n0 graph.old × AllSmall w (cell_pairs (pair_of (held rows left.now) (held cols right.now))) }
    ensures { Grows (limits_of lim) w (enter_all (limits_of lim) (pairs_in w graph.old n0) (cell_pairs (pair_of (held rows left.now) (held cols right.now)))) graph.new result }
{
    let mut n = n0;
    for i in 0..rows {
        let l = size_u64(class_at(left, i));
        n = enter_row(lim, w, l, right, cols, graph, n)?;
    }
    Some(n)
}

// The pairs that the transport at w joins, if there is one.
fn enter_transport(
    lim: Limits,
    s: &[u8],
    im: Image,
    l: usize,
    r: usize,
    w: Walk,
    graph: &mut [u16],
    n: usize,
) -> Option<usize>
    requires { Loaded s.now im × Valid (tables_of s.now) × (l < im.classes) × (r < im.classes) × (w.op < im.operations) × Graph (limits_of lim) im.classes n graph.old × AllSmall im.classes (each (λ a. cell_pairs a.sides) (actions_at (tables_of s.now) l r w)) }
    ensures { Grows (limits_of lim) im.classes (enter_all (limits_of lim) (pairs_in im.classes graph.old n) (each (λ a. cell_pairs a.sides) (actions_at (tables_of s.now) l r w))) graph.new result }
{
    let mut left = [0u64; monomial_terms::NUMBERS];
    let mut right = [0u64; monomial_terms::NUMBERS];
    match monomials(s, im, l, r, w, &mut left, &mut right) {
        None => Some(n),
        Some((rows, cols)) => enter_cells(lim, im.classes, &left, rows, &right, cols, graph, n),
    }
}

// The pairs that the transports of classes l and r join.
fn enter_transports(
    lim: Limits,
    s: &[u8],
    im: Image,
    l: usize,
    r: usize,
    graph: &mut [u16],
    n0: usize,
) -> Option<usize>
    requires { Loaded s.now im × Valid (tables_of s.now) × (l < im.classes) × (r < im.classes) × Graph (limits_of lim) im.classes n0 graph.old }
    ensures { Grows (limits_of lim) im.classes (enter_all (limits_of lim) (pairs_in im.classes graph.old n0) (each (λ a. cell_pairs a.sides) (transports (tables_of s.now) l r))) graph.new result }
{
    let mut n = n0;
    let mut x = first(s, im, l, r);
    while let Some(w) = x {
        n = enter_transport(lim, s, im, l, r, w, graph, n)?;
        x = next(s, im, l, r, w);
    }
    Some(n)
}

// ---- the graph
// "every pair of classes that an action of it joins"
fn enter_joins(
    lim: Limits,
    s: &[u8],
    im: Image,
    l: usize,
    r: usize,
    graph: &mut [u16],
    n: usize,
) -> Option<usize>
    requires { Loaded s.now im × Valid (tables_of s.now) × (l < im.classes) × (r < im.classes) × Graph (limits_of lim) im.classes n graph.old }
    ensures { Grows (limits_of lim) im.classes (enter_all (limits_of lim) (pairs_in im.classes graph.old n) (joins (tables_of s.now) (l, r))) graph.new result }
{
    let m = enter_actions(lim, s, im, l, r, graph, n)?;
    enter_transports(lim, s, im, l, r, graph, m)
}

// "the number of monomial pairs passed over" of classes l and r; none where the image's counts are not large.
fn passed_over(s: &[u8], im: Image, large: bool, l: usize, r: usize) -> u64
    requires { Loaded s.now im × Valid (tables_of s.now) × (l < im.classes) × (r < im.classes) × (large ≡ counts.large (tables_of s.now)) }
    ensures { result ≡ skipped_at (tables_of s.now) (l, r) }
{
    if large {
        return skipped_at(s, im, l, r);
    }
    0
}

// From the n0 pairs at hand on: "one [check] a pair in building", before its turn.
fn build_from(
    lim: Limits,
    s: &[u8],
    im: Image,
    large: bool,
    budget: Budget,
    graph: &mut [u16],
    n0: usize,
) -> Option<Built>
    requires { Loaded s.now im × Valid (tables_of s.now) × Graph (limits_of lim) im.classes n0 graph.old × AllPairs (tables_of s.now) (pairs_in im.classes graph.old n0) × (large ≡ counts.large (tables_of s.now)) }
    ensures { Ends (limits_of lim) im.classes (skipped_from (limits_of lim) budget.left (tables_of s.now) (pairs_in im.classes graph.old n0) 0) (build_from (limits_of lim) budget.left (tables_of s.now) (pairs_in im.classes graph.old n0) 0) graph.new result }
{
    let mut n = n0;
    let mut b = budget;
    let mut skipped: u64 = 0;
    let mut i = 0;
    // no range: the pairs to come grow while they are visited
    while i < n {
        let check = b.spend();
        b = check.budget;
        if !check.passed {
            return Some(Built::Cut(skipped));
        }
        let l = left_at(graph, im.classes, i);
        let r = right_at(graph, im.classes, i);
        skipped += passed_over(s, im, large, l, r);
        n = enter_joins(lim, s, im, l, r, graph, n)?;
        i += 1;
    }
    Some(Built::All(n, b, skipped))
}

// From the queried pair on, in a cleared array.
fn build_first(
    lim: Limits,
    s: &[u8],
    im: Image,
    l: usize,
    r: usize,
    budget: Budget,
    graph: &mut [u16],
) -> Option<Built>
    requires { Loaded s.now im × Valid (tables_of s.now) × (l < im.classes) × (r < im.classes) × (im.classes * im.classes + lim.pairs ≤ length graph.old) × (lim.pairs ≤ 4096) × (graph.old ≡ replicate (length graph.old) 0) }
    ensures { Ends (limits_of lim) im.classes (skipped_in (limits_of lim) (tables_of s.now) (l, r) budget.left) (build (limits_of lim) (tables_of s.now) (l, r) budget.left) graph.new result }
{
    let n = enter_pair(lim, im.classes, graph, 0, l, r)?;
    let large = is_large(s, im);
    build_from(lim, s, im, large, budget, graph, n)
}

// "Built in full, it holds the queried pair (left class, right class) and, with each pair, every pair of classes that an action of it joins."
// None: refusal 12. Cut short or refused, the array is cleared.
pub fn build(
    lim: Limits,
    s: &[u8],
    im: Image,
    l: usize,
    r: usize,
    budget: Budget,
    graph: &mut [u16],
) -> Option<Built>
    requires { Loaded s.now im × Valid (tables_of s.now) × (l < im.classes) × (r < im.classes) × (im.classes * im.classes + lim.pairs ≤ length graph.old) × (lim.pairs ≤ 4096) }
    ensures { Builds im.classes (skipped_in (limits_of lim) (tables_of s.now) (l, r) budget.left) (build (limits_of lim) (tables_of s.now) (l, r) budget.left) graph.old graph.new result }
{
    graph.fill(0);
    match build_first(lim, s, im, l, r, budget, graph) {
        Some(Built::All(n, b, k)) => Some(Built::All(n, b, k)),
        Some(Built::Cut(k)) => {
            graph.fill(0);
            Some(Built::Cut(k))
        }
        None => {
            graph.fill(0);
            None
        }
    }
}
