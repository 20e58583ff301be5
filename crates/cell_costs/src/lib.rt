// The cells of a transport action over two monomials (exact_fixed.rs): the largest mass, and the cost matrix laid out.
#![tactic(auto)]

ghost use Rattle.std.specs.Prelude.{◌≡◌, map, ◌*◌, ◌^◌, ◌≤◌, ◌<◌, max, length};
ghost use Rattle.spec.specs.Monomial.{counts};
ghost use Rattle.spec.specs.Transport.{largest, mass_of, weight};
ghost use Rattle.wide.specs.Value.{unsigned};
ghost use Rattle.arrays.specs.Arrays.{Known, quality_in};
ghost use Rattle.monomial_terms.specs.Terms.{held};
ghost use Rattle.cost_matrix.specs.Matrix.{costs_after};
ghost use Rattle.cells.specs.Cells.{sides_of, Sides, Joined};
ghost use Rattle.cells.specs.Problem.{problem_at};

use arrays::{mass_of, size_of};
use cells::cell;
use wide::Wide;

// V over one cell more: v, or its mass where that is larger.
fn larger(v: u32, mass: u32) -> u32
    ensures { result ≡ max v mass }
{
    v.max(mass)
}

// V: the largest mass of the cells' pairs.
pub fn largest_mass(
    graph: &[u16],
    pairs: &[u32],
    w: usize,
    left: &[u64],
    rows: usize,
    right: &[u64],
    cols: usize,
) -> u32
    requires { Known w graph.now pairs.now × Sides left.now rows right.now cols × Joined w (sides_of left.now rows right.now cols) }
    ensures { result ≡ largest (map mass_of (problem_at (quality_in w graph.now pairs.now) (sides_of left.now rows right.now cols)).cells) }
{
    let count = rows * cols;
    let mut v = 0u32;
    for k in 0..count {
        let p = cell(left, rows, right, cols, k);
        v = larger(v, mass_of(graph, pairs, w, p.left, p.right));
    }
    v
}

// The cost matrix, row by row: the cells' qualities by their pairs, x the weight.
pub fn lay_cells(
    graph: &[u16],
    pairs: &[u32],
    w: usize,
    left: &[u64],
    rows: usize,
    right: &[u64],
    cols: usize,
    supply: &[u32],
    demand: &[u32],
    x: Wide,
    costs: &mut [u64],
)
    requires { Known w graph.now pairs.now × Sides left.now rows right.now cols × Joined w (sides_of left.now rows right.now cols) × (supply.now ≡ counts (held rows left.now)) × (demand.now ≡ counts (held cols right.now))
        × (unsigned x ≡ weight (problem_at (quality_in w graph.now pairs.now) (sides_of left.now rows right.now cols))) × (unsigned x < 2 ^ 71) × (3 * (rows * cols) ≤ length costs.old) }
    ensures { costs.new ≡ costs_after (problem_at (quality_in w graph.now pairs.now) (sides_of left.now rows right.now cols)) costs.old }
{
    let count = rows * cols;
    for k in 0..count {
        let p = cell(left, rows, right, cols, k);
        let size = size_of(graph, pairs, w, p.left, p.right);
        let mass = mass_of(graph, pairs, w, p.left, p.right);
        cost_matrix::lay_cell(costs, k, x, size, mass, supply[k / cols], demand[k % cols]);
    }
}
