// The least plan of a problem whose cost matrix is laid (transport.rs): where the totals differ or a side is empty there is none.
#![tactic(auto)]

ghost use Rattle.std.specs.Prelude.{◌*◌, ◌≤◌, length};
ghost use Rattle.spec.specs.Transport.{Problem};
ghost use Rattle.cost_matrix.specs.Matrix.{Given, Laid};
ghost use Rattle.augment.specs.Solved.{Solves};

use augment::solve_even;
use plan_parts::empty_plan;
use weights::total;

// The least plan of the problem whose cost matrix is laid in `costs`, in the first rows * columns numbers of `flow`: whether there is one; zeros where there is none.
pub fn solve_laid(supply: &[u32], demand: &[u32], costs: &[u64], flow: &mut [u64]) -> bool
    requires { Laid supply.now demand.now costs.now × (3 * (length supply.now * length demand.now) ≤ length costs.now) × (length supply.now * length demand.now ≤ length flow.old) }
    ensures { (p : Problem) → Given p supply.now demand.now costs.now → Solves p flow.old flow.new result }
{
    let f = total(supply);
    let g = total(demand);
    if supply.len() == 0 {
        return false;
    }
    if demand.len() == 0 {
        return false;
    }
    if f == g {
        return solve_even(supply, demand, costs, flow, f);
    }
    let n = supply.len() * demand.len();
    empty_plan(flow, n);
    false
}
