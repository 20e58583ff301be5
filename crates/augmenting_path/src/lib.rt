// An augmenting path (transport.rs): the least that is left along it.
#![tactic(auto)]

ghost use Rattle.std.specs.Prelude.{◌≡◌, ◌-◌, ◌*◌, ◌≤◌, length};
ghost use Rattle.spec.specs.Transport.{WIDEST};
ghost use Rattle.search_laws.specs.Walk.{LAST, steps_from};
ghost use Rattle.search_laws.specs.Path.{Step, Steps, left_on, least_on};

use cost_matrix::WIDEST;
use net::NODES;
use plan_parts::place;
use search::MARGINS;
use tracing::LAST;

// What is left on the step from u to v.
fn left_on(
    costs: &[u64],
    flow: &[u64],
    left: &[u64; MARGINS],
    r: usize,
    c: usize,
    u: usize,
    v: usize,
) -> u64
    requires { (r ≤ WIDEST) × (c ≤ WIDEST) × (3 * (r * c) ≤ length costs.now) × (r * c ≤ length flow.now) × Step r c u v }
    ensures { result ≡ left_on costs.now flow.now left.now r c u v }
{
    if u == 0 {
        return left[v - 1];
    }
    if u <= r {
        let k = place(u - 1, v - 1 - r, c);
        return costs[3 * k + 2].saturating_sub(flow[k]);
    }
    if v == 1 + r + c {
        return left[WIDEST + (u - 1 - r)];
    }
    let k = place(v - 1, u - 1 - r, c);
    flow[k]
}

// The least that is left along the path from place a on, and no more than b.
pub fn bottleneck(
    costs: &[u64],
    flow: &[u64],
    left: &[u64; MARGINS],
    path: &[u64; NODES],
    r: usize,
    c: usize,
    from: usize,
    most: u64,
) -> u64
    requires { (r ≤ WIDEST) × (c ≤ WIDEST) × (3 * (r * c) ≤ length costs.now) × (r * c ≤ length flow.now) × (from ≤ LAST) × Steps r c (steps_from path.now (LAST - from) from) }
    ensures { result ≡ least_on costs.now flow.now left.now r c most (steps_from path.now (LAST - from) from) }
{
    let mut b = most;
    for a in from..LAST {
        let x = left_on(
            costs,
            flow,
            left,
            r,
            c,
            path[a] as usize,
            path[a + 1] as usize,
        );
        b = b.min(x);
    }
    b
}
