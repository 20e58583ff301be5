// A plan of a transport action offered (exact_fixed.rs): its quality read off its cells, and its runs listed where it is better than the best so far.
#![tactic(auto)]

ghost use Rattle.std.specs.Prelude.{◌≡◌, true, ℕ, ◌+◌, ◌*◌, ◌^◌, ◌≤◌, ◌<◌, length, get_or};
ghost use Rattle.std.proofs.Math.Option.{some};
ghost use Rattle.spec.specs.Action.{cell_pairs};
ghost use Rattle.spec.specs.Transport.{plan_mass, plan_size};
ghost use Rattle.spec.specs.Round as round;
ghost use Rattle.laws.specs.Buffers.{over};
ghost use Rattle.wide.specs.Value.{unsigned};
ghost use Rattle.wide.specs.Wrap.{Natural};
ghost use Rattle.arrays.specs.Arrays.{Known, quality_in, term_in};
ghost use Rattle.cells.specs.Cells.{sides_of, Sides, Joined};
ghost use Rattle.cells.specs.Problem.{problem_at};
ghost use Rattle.plan_offer.specs.Sums.{add_units, totals_after};
ghost use Rattle.plan_offer.specs.Better.{Words};
ghost use Rattle.plan_offer.specs.Listing.{many_after, cell_after, runs_at};
ghost use Rattle.plan_offer.specs.Plans.{action_of, best_after, list_after};

use arrays::{mass_of, size_of, term_of};
use cells::cell;
use numbers::long_u32;
use quality::{Best, How};
use stores::put_u64;
use wide::Wide;

// ---- its quality
// The sums of count × size and of count × mass.
#[derive(Clone, Copy)]
struct Totals {
    size: Wide,
    mass: Wide,
}

// x units of what costs `per` each, added.
fn add_units(t: Wide, x: u64, per: u32) -> Wide
    requires { x < 2 ^ 32 }
    ensures { result ≡ add_units t x per }
{
    t.wrapping_add(Wide {
        lo: x * long_u32(per),
        hi: 0,
    })
}

// Cell k with x units, added.
fn add_cell(
    graph: &[u16],
    pairs: &[u32],
    w: usize,
    left: &[u64],
    rows: usize,
    right: &[u64],
    cols: usize,
    k: usize,
    x: u64,
    t: Totals,
) -> Totals
    requires { Known w graph.now pairs.now × Sides left.now rows right.now cols × Joined w (sides_of left.now rows right.now cols) × (k < rows * cols) × (x < 2 ^ 32) }
    ensures { result ≡ totals_after t x (quality_in w graph.now pairs.now (get_or (cell_pairs (sides_of left.now rows right.now cols)) k (0, 0))) }
{
    if x == 0 {
        return t;
    }
    let p = cell(left, rows, right, cols, k);
    let size = add_units(t.size, x, size_of(graph, pairs, w, p.left, p.right));
    let mass = add_units(t.mass, x, mass_of(graph, pairs, w, p.left, p.right));
    Totals { size, mass }
}

// "the sum of count × size, and the sum of count × mass"
fn plan_totals(
    graph: &[u16],
    pairs: &[u32],
    w: usize,
    left: &[u64],
    rows: usize,
    right: &[u64],
    cols: usize,
    x: &[u64],
) -> Totals
    requires { Known w graph.now pairs.now × Sides left.now rows right.now cols × Joined w (sides_of left.now rows right.now cols) × (length x.now ≡ rows * cols) × ((k : ℕ) → k < length x.now → get_or x.now k 0 < 2 ^ 32) }
    ensures { Natural result.size (plan_size x.now (problem_at (quality_in w graph.now pairs.now) (sides_of left.now rows right.now cols)).cells)
        × Natural result.mass (plan_mass x.now (problem_at (quality_in w graph.now pairs.now) (sides_of left.now rows right.now cols)).cells) }
{
    let mut t = Totals {
        size: Wide { lo: 0, hi: 0 },
        mass: Wide { lo: 0, hi: 0 },
    };
    for k in 0..x.len() {
        t = add_cell(graph, pairs, w, left, rows, right, cols, k, x[k], t);
    }
    t
}

// Whether a plan with these sums is strictly better: 1 is added to its size.
fn cheaper(size: Wide, mass: Wide, b: Best) -> bool
    requires { unsigned mass ≤ unsigned size }
    ensures { (result ≡ round.better (1 + unsigned size, unsigned mass) (b.size, b.mass)) × (result ≡ true → Words size mass) }
{
    let before = b.size;
    if size.hi > 0 {
        return false;
    }
    if size.lo >= before {
        return false;
    }
    quality::better(size.lo + 1, mass.lo, b)
}

// ---- its runs
// Cell k with x units, behind m runs of the list: how many runs it has then.
fn list_cell(
    graph: &[u16],
    pairs: &[u32],
    w: usize,
    left: &[u64],
    rows: usize,
    right: &[u64],
    cols: usize,
    k: usize,
    x: u64,
    list: &mut [u64],
    m: usize,
) -> usize
    requires { Known w graph.now pairs.now × Sides left.now rows right.now cols × Joined w (sides_of left.now rows right.now cols) × (k < rows * cols) × (x < 2 ^ 32) × (m < length list.old) }
    ensures { (result ≡ many_after m x) × (list.new ≡ cell_after list.old m x (term_in w graph.now pairs.now (get_or (cell_pairs (sides_of left.now rows right.now cols)) k (0, 0)))) }
{
    if x == 0 {
        return m;
    }
    let p = cell(left, rows, right, cols, k);
    put_u64(
        list,
        m,
        x * 16384 + long_u32(term_of(graph, pairs, w, p.left, p.right)),
    );
    m + 1
}

// The plan's cells with units, row by row: how many.
fn list_plan(
    graph: &[u16],
    pairs: &[u32],
    w: usize,
    left: &[u64],
    rows: usize,
    right: &[u64],
    cols: usize,
    x: &[u64],
    list: &mut [u64],
) -> usize
    requires { Known w graph.now pairs.now × Sides left.now rows right.now cols × Joined w (sides_of left.now rows right.now cols) × (length x.now ≡ rows * cols) × ((k : ℕ) → k < length x.now → get_or x.now k 0 < 2 ^ 32) × (rows * cols ≤ length list.old) }
    ensures { (result ≡ length (runs_at (term_in w graph.now pairs.now) (sides_of left.now rows right.now cols) x.now))
        × (list.new ≡ over (runs_at (term_in w graph.now pairs.now) (sides_of left.now rows right.now cols) x.now) list.old) }
{
    let mut m = 0;
    for k in 0..x.len() {
        m = list_cell(graph, pairs, w, left, rows, right, cols, k, x[k], list, m);
    }
    m
}

// ---- against the best so far
// The plan x offered: the best afterwards. A better plan is listed.
pub fn offer_plan(
    graph: &[u16],
    pairs: &[u32],
    w: usize,
    op: usize,
    left: &[u64],
    rows: usize,
    right: &[u64],
    cols: usize,
    x: &[u64],
    list: &mut [u64],
    best: Best,
) -> Best
    requires { Known w graph.now pairs.now × Sides left.now rows right.now cols × Joined w (sides_of left.now rows right.now cols) × (length x.now ≡ rows * cols) × ((k : ℕ) → k < length x.now → get_or x.now k 0 < 2 ^ 32) × (rows * cols ≤ length list.old) }
    ensures { (result ≡ best_after (quality_in w graph.now pairs.now) (term_in w graph.now pairs.now) (action_of op (sides_of left.now rows right.now cols)) (some x.now) best)
        × (list.new ≡ list_after (quality_in w graph.now pairs.now) (term_in w graph.now pairs.now) (action_of op (sides_of left.now rows right.now cols)) (some x.now) best list.old) }
{
    let t = plan_totals(graph, pairs, w, left, rows, right, cols, x);
    let size = t.size;
    let mass = t.mass;
    if cheaper(size, mass, best) {
        let m = list_plan(graph, pairs, w, left, rows, right, cols, x, list);
        return Best {
            size: size.lo + 1,
            mass: mass.lo,
            how: How::Plan(op, m),
        };
    }
    best
}
