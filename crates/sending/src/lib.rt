// Units sent along an augmenting path (transport.rs).
#![tactic(auto)]

ghost use Rattle.std.specs.Prelude.{◌≡◌, ℕ, ◌+◌, ◌-◌, ◌*◌, ◌^◌, ◌≤◌, ◌<◌, length, get_or};
ghost use Rattle.spec.specs.Transport.{WIDEST};
ghost use Rattle.search_laws.specs.Walk.{LAST, steps_from};
ghost use Rattle.search_laws.specs.Path.{Step, Steps, sent_on, sent};

use net::NODES;
use plan_parts::place;
use stores::put_u64;
use tracing::LAST;

// What is left of x with n less: nothing where n is more.
fn less(x: u64, n: u64) -> u64
    ensures { result ≡ x - n }
{
    x.saturating_sub(n)
}

// n units along the step from u to v.
fn send_on(flow: &mut [u64], r: usize, c: usize, u: usize, v: usize, n: u64)
    requires { (r ≤ WIDEST) × (c ≤ WIDEST) × (r * c ≤ length flow.old) × Step r c u v × ((k : ℕ) → k < r * c → get_or flow.old k 0 + n < 2 ^ 64) }
    ensures { flow.new ≡ sent_on r c n u v flow.old }
{
    if u == 0 {
        return;
    }
    if u <= r {
        let k = place(u - 1, v - 1 - r, c);
        let x = flow[k] + n;
        put_u64(flow, k, x);
        return;
    }
    if v == 1 + r + c {
        return;
    }
    let k = place(v - 1, u - 1 - r, c);
    let x = less(flow[k], n);
    put_u64(flow, k, x);
}

// n units along the path from place `from` on.
pub fn send(flow: &mut [u64], path: &[u64; NODES], r: usize, c: usize, from: usize, n: u64)
    requires { (r ≤ WIDEST) × (c ≤ WIDEST) × (r * c ≤ length flow.old) × (from ≤ LAST) × Steps r c (steps_from path.now (LAST - from) from) × ((k : ℕ) → k < r * c → get_or flow.old k 0 + LAST * n < 2 ^ 64) }
    ensures { flow.new ≡ sent r c n (steps_from path.now (LAST - from) from) flow.old }
{
    for a in from..LAST {
        send_on(flow, r, c, path[a] as usize, path[a + 1] as usize, n);
    }
}
