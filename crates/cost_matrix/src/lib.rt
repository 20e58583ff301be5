// The cost matrix of a transport (transport.rs): each cell's cost, size * W + mass, as a number of two words, and its capacity; three numbers a cell, row by row.
#![tactic(auto)]

ghost use Rattle.std.specs.Prelude.{◌≡◌, ◌+◌, ◌*◌, ◌^◌, ◌<◌, min, length};
ghost use Rattle.spec.specs.Transport.{cost, WIDEST};
ghost use Rattle.wide.specs.Value.{unsigned};
ghost use Rattle.cost_matrix.specs.Matrix.{cost_of, celled, laid_cell};

use numbers::long_u32;
use stores::put_u64;
use weights::cell_cost;
use wide::Wide;

// "At most 65 rows and 65 columns": so many cells, and so many numbers of the matrix.
pub const WIDEST: usize = 65;

pub const CELLS: usize = WIDEST * WIDEST;

pub const COSTS: usize = 3 * CELLS;

// ---- reads
// What cell k costs.
pub fn cost(costs: &[u64], k: usize) -> Wide
    requires { 3 * k + 2 < length costs.now }
    ensures { result ≡ cost_of costs.now k }
{
    Wide {
        lo: costs[3 * k],
        hi: costs[3 * k + 1],
    }
}

// ---- one cell
// The cost d and the capacity of cell k.
pub fn put_cell(costs: &mut [u64], k: usize, d: Wide, cap: u64)
    requires { 3 * k + 2 < length costs.old }
    ensures { costs.new ≡ celled costs.old k d cap }
{
    let at = 3 * k;
    put_u64(costs, at, d.lo);
    put_u64(costs, at + 1, d.hi);
    put_u64(costs, at + 2, cap);
}

// What an allowed cell takes: the smaller of its two margins.
fn capacity(supply: u32, demand: u32) -> u64
    ensures { result ≡ min supply demand }
{
    long_u32(supply).min(long_u32(demand))
}

// Cell k, allowed: its cost, and its capacity.
pub fn lay_cell(
    costs: &mut [u64],
    k: usize,
    w: Wide,
    size: u32,
    mass: u32,
    supply: u32,
    demand: u32,
)
    requires { (3 * k + 2 < length costs.old) × (unsigned w < 2 ^ 71) }
    ensures { costs.new ≡ laid_cell (unsigned w) (cost size mass) supply demand k costs.old }
{
    let d = cell_cost(size, mass, w);
    let cap = capacity(supply, demand);
    put_cell(costs, k, d, cap);
}
