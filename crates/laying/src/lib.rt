// A transport action over two monomials (exact_fixed.rs): its margins and its cost matrix laid out, and solved.
#![tactic(auto)]

ghost use Rattle.std.specs.Prelude.{◌≡◌, true, ◌*◌, ◌≤◌, length};
ghost use Rattle.spec.specs.Monomial.{counts, narrow};
ghost use Rattle.laws.specs.Buffers.{over};
ghost use Rattle.arrays.specs.Arrays.{Known, quality_in};
ghost use Rattle.monomial_terms.specs.Terms.{TERMS, NUMBERS, held};
ghost use Rattle.cells.specs.Cells.{sides_of, Sides, Joined};
ghost use Rattle.laying.specs.Tried.{Tried};

use cell_costs::{largest_mass, lay_cells};
use numbers::short_u64;
use stores::put_u32;

// the largest number of rows and of columns
const SIDE: usize = 65;

// The counts of a monomial of n terms.
fn lay_margin(mono: &[u64], n: usize, margin: &mut [u32])
    requires { (length mono.now ≡ NUMBERS) × (n ≤ TERMS) × (narrow (held n mono.now) ≡ true) × (TERMS ≤ length margin.old) }
    ensures { margin.new ≡ over (counts (held n mono.now)) margin.old }
{
    for i in 0..n {
        put_u32(margin, i, short_u64(monomial_terms::count_at(mono, i)));
    }
}

// An action over two monomials with these margins: laid out and solved. Whether there is a plan.
fn solve(
    graph: &[u16],
    pairs: &[u32],
    w: usize,
    left: &[u64],
    rows: usize,
    right: &[u64],
    cols: usize,
    supply: &[u32],
    demand: &[u32],
    costs: &mut [u64],
    flow: &mut [u64],
) -> bool
    requires { Known w graph.now pairs.now × Sides left.now rows right.now cols × Joined w (sides_of left.now rows right.now cols) × (supply.now ≡ counts (held rows left.now)) × (demand.now ≡ counts (held cols right.now))
        × (3 * (rows * cols) ≤ length costs.old) × (rows * cols ≤ length flow.old) }
    ensures { Tried (quality_in w graph.now pairs.now) (sides_of left.now rows right.now cols) costs.old flow.old costs.new flow.new result }
{
    let f = weights::total(supply);
    let v = largest_mass(graph, pairs, w, left, rows, right, cols);
    let x = weights::weight(f, v);
    lay_cells(
        graph, pairs, w, left, rows, right, cols, supply, demand, x, costs,
    );
    solving::solve_laid(supply, demand, costs, flow)
}

// The same, with the margins out of the monomials.
pub fn plan_transport(
    graph: &[u16],
    pairs: &[u32],
    w: usize,
    left: &[u64],
    rows: usize,
    right: &[u64],
    cols: usize,
    costs: &mut [u64],
    flow: &mut [u64],
) -> bool
    requires { Known w graph.now pairs.now × Sides left.now rows right.now cols × Joined w (sides_of left.now rows right.now cols) × (3 * (rows * cols) ≤ length costs.old) × (rows * cols ≤ length flow.old) }
    ensures { Tried (quality_in w graph.now pairs.now) (sides_of left.now rows right.now cols) costs.old flow.old costs.new flow.new result }
{
    let mut supply = [0u32; SIDE];
    let mut demand = [0u32; SIDE];
    lay_margin(left, rows, &mut supply);
    lay_margin(right, cols, &mut demand);
    solve(
        graph,
        pairs,
        w,
        left,
        rows,
        right,
        cols,
        &supply[0..rows],
        &demand[0..cols],
        costs,
        flow,
    )
}
