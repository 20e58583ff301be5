// The cost matrix of the problem that slices give (transport.rs): V, then each cell by its flag.
#![tactic(auto)]

ghost use Rattle.std.specs.Prelude.{◌≡◌, List, map, ℕ, ◌+◌, ◌*◌, ◌^◌, ◌≤◌, ◌<◌, max, eqb, length};
ghost use Rattle.spec.specs.Bytes.{pick};
ghost use Rattle.spec.specs.Transport.{cost, forbidden, largest, mass_of, weight, WIDEST};
ghost use Rattle.wide.specs.Value.{unsigned};
ghost use Rattle.cost_matrix.specs.Matrix.{laid_cell, costs_after};
ghost use Rattle.cost_matrix.specs.Cells.{problem_of};

use cost_matrix::{lay_cell, put_cell};
use weights::{if_allowed, total, weight};
use wide::Wide;

// Cell k by its flag; where it is forbidden it costs nothing and takes nothing.
fn lay_flagged(
    costs: &mut [u64],
    k: usize,
    w: Wide,
    flag: u8,
    size: u32,
    mass: u32,
    supply: u32,
    demand: u32,
)
    requires { (3 * k + 2 < length costs.old) × (unsigned w < 2 ^ 71) }
    ensures { costs.new ≡ laid_cell (unsigned w) (pick (eqb flag 0) forbidden (cost size mass)) supply demand k costs.old }
{
    if flag == 0 {
        put_cell(costs, k, Wide { lo: 0, hi: 0 }, 0);
        return;
    }
    lay_cell(costs, k, w, size, mass, supply, demand);
}

// ---- all cells
// V over one cell more: v, or its mass where it is allowed and larger.
fn larger(v: u32, flag: u8, mass: u32) -> u32
    ensures { result ≡ max v (pick (eqb flag 0) 0 mass) }
{
    v.max(if_allowed(flag, mass))
}

// V: the largest mass in an allowed cell.
fn largest_mass(masses: &[u32], allowed: &[u8]) -> u32
    requires { length allowed.now ≡ length masses.now }
    ensures { (supply demand sizes : List ℕ) → length sizes ≡ length masses.now → result ≡ largest (map mass_of (problem_of supply demand sizes masses.now allowed.now).cells) }
{
    let mut v = 0u32;
    for i in 0..masses.len() {
        v = larger(v, allowed[i], masses[i]);
    }
    v
}

fn lay_cells(
    supply: &[u32],
    demand: &[u32],
    sizes: &[u32],
    masses: &[u32],
    allowed: &[u8],
    w: Wide,
    costs: &mut [u64],
)
    requires { (length supply.now ≤ WIDEST) × (length demand.now ≤ WIDEST) × (length sizes.now ≡ length supply.now * length demand.now) × (length masses.now ≡ length supply.now * length demand.now)
        × (length allowed.now ≡ length supply.now * length demand.now) × (3 * (length supply.now * length demand.now) ≤ length costs.old) × (unsigned w < 2 ^ 71)
        × (unsigned w ≡ weight (problem_of supply.now demand.now sizes.now masses.now allowed.now)) }
    ensures { costs.new ≡ costs_after (problem_of supply.now demand.now sizes.now masses.now allowed.now) costs.old }
{
    let c = demand.len();
    for k in 0..sizes.len() {
        lay_flagged(
            costs,
            k,
            w,
            allowed[k],
            sizes[k],
            masses[k],
            supply[k / c],
            demand[k % c],
        );
    }
}

// The matrix of the problem that the slices give.
pub fn lay(
    supply: &[u32],
    demand: &[u32],
    sizes: &[u32],
    masses: &[u32],
    allowed: &[u8],
    costs: &mut [u64],
)
    requires { (length supply.now ≤ WIDEST) × (length demand.now ≤ WIDEST) × (length sizes.now ≡ length supply.now * length demand.now) × (length masses.now ≡ length supply.now * length demand.now)
        × (length allowed.now ≡ length supply.now * length demand.now) × (3 * (length supply.now * length demand.now) ≤ length costs.old) }
    ensures { costs.new ≡ costs_after (problem_of supply.now demand.now sizes.now masses.now allowed.now) costs.old }
{
    let w = weight(total(supply), largest_mass(masses, allowed));
    lay_cells(supply, demand, sizes, masses, allowed, w, costs);
}
