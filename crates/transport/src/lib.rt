// Least-cost transport (transport.rs): the least plan of a problem that slices give, with its size and mass.
#![tactic(auto)]

ghost use Rattle.std.specs.Prelude.{◌≡◌, ℕ, ◌^◌, ◌≤◌, ◌<◌, length, get_or, take};
ghost use Rattle.wide.specs.Wrap.{Natural};
ghost use Rattle.cost_matrix.specs.Matrix.{CELLS, COSTS};
ghost use Rattle.cost_matrix.specs.Cells.{problem_of};
ghost use Rattle.augment.specs.Solved.{Solves};
ghost use Rattle.transport.specs.Slices.{Shaped, total_from};
ghost use Rattle.transport.specs.Public.{shape_of, shaped_of, Told, Ensures};

use cost_matrix::{CELLS, COSTS, WIDEST};
use numbers::long_u32;
use slice_matrix::lay;
use solving::solve_laid;
use weights::if_allowed;
use wide::Wide;

// A plan's size and mass.
#[derive(Clone, Copy)]
pub struct Quality {
    pub size: Wide,
    pub mass: Wide,
}

#[derive(Clone, Copy)]
pub enum Answer {
    Plan(Quality),
    Refused(u8),
}

// Whether the lengths fit r rows and c columns: cells' sizes, masses and flags, and the plan.
fn shaped(r: usize, c: usize, s: usize, m: usize, a: usize, p: usize) -> bool
    ensures { result ≡ shape_of r c s m a p }
{
    if r > WIDEST {
        return false;
    }
    if c > WIDEST {
        return false;
    }
    let n = r * c;
    if s != n {
        return false;
    }
    if m != n {
        return false;
    }
    if a != n {
        return false;
    }
    p == n
}

// The least plan of the problem that the slices give, in the first rows * columns numbers of `flow`: whether there is one.
fn solve_cells(
    supply: &[u32],
    demand: &[u32],
    sizes: &[u32],
    masses: &[u32],
    allowed: &[u8],
    costs: &mut [u64],
    flow: &mut [u64],
) -> bool
    requires { Shaped supply.now demand.now sizes.now masses.now allowed.now costs.old flow.old }
    ensures { Solves (problem_of supply.now demand.now sizes.now masses.now allowed.now) flow.old flow.new result }
{
    lay(supply, demand, sizes, masses, allowed, costs);
    solve_laid(supply, demand, costs, flow)
}

// The plan's cells out of the work buffer.
fn copy_plan(flow: &[u64], plan: &mut [u32])
    requires { (length plan.old ≤ length flow.now) × ((k : ℕ) → k < length plan.old → get_or flow.now k 0 < 2 ^ 32) }
    ensures { plan.new ≡ take (length plan.old) flow.now }
{
    for k in 0..plan.len() {
        plan[k] = flow[k] as u32;
    }
}

// The sum over the cells of the units times what each costs by `per`.
fn plan_total(plan: &[u32], per: &[u32], allowed: &[u8]) -> Wide
    requires { (length per.now ≡ length plan.now) × (length allowed.now ≡ length plan.now) × (length plan.now ≤ CELLS) }
    ensures { Natural result (total_from plan.now per.now allowed.now (length plan.now) 0) }
{
    let mut t = Wide { lo: 0, hi: 0 };
    for i in 0..plan.len() {
        let x = long_u32(plan[i]) * long_u32(if_allowed(allowed[i], per[i]));
        t = t.wrapping_add(Wide { lo: x, hi: 0 });
    }
    t
}

// The plan, or refusal 15 or 16, with work buffers that are long enough.
fn solve_shaped(
    supply: &[u32],
    demand: &[u32],
    sizes: &[u32],
    masses: &[u32],
    allowed: &[u8],
    plan: &mut [u32],
    costs: &mut [u64],
    flow: &mut [u64],
) -> Answer
    requires { (COSTS ≤ length costs.old) × (CELLS ≤ length flow.old) }
    ensures { Told (shaped_of supply.now demand.now sizes.now masses.now allowed.now (length plan.old)) plan.old plan.new result }
{
    if shaped(
        supply.len(),
        demand.len(),
        sizes.len(),
        masses.len(),
        allowed.len(),
        plan.len(),
    ) {
        if solve_cells(supply, demand, sizes, masses, allowed, costs, flow) {
            copy_plan(flow, plan);
            let s = plan_total(plan, sizes, allowed);
            let m = plan_total(plan, masses, allowed);
            return Answer::Plan(Quality { size: s, mass: m });
        }
        return Answer::Refused(16);
    }
    Answer::Refused(15)
}

// The least plan and its size and mass, or refusal 1, 15 or 16; the work buffers are cleared unless one is too short.
pub fn solve_transport(
    supply: &[u32],
    demand: &[u32],
    sizes: &[u32],
    masses: &[u32],
    allowed: &[u8],
    plan: &mut [u32],
    costs: &mut [u64],
    flow: &mut [u64],
) -> Answer
    ensures { Ensures supply.now demand.now sizes.now masses.now allowed.now plan.old costs.old flow.old plan.new costs.new flow.new result }
{
    if costs.len() < COSTS {
        return Answer::Refused(1);
    }
    if flow.len() < CELLS {
        return Answer::Refused(1);
    }
    let r = solve_shaped(supply, demand, sizes, masses, allowed, plan, costs, flow);
    costs.fill(0);
    flow.fill(0);
    r
}
