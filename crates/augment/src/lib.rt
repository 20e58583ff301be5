// The least plan by successive shortest augmenting paths (transport.rs): one path after the other until all units are sent.
#![tactic(auto)]

ghost use Rattle.std.specs.Prelude.{◌≡◌, ℕ, ◌+◌, ◌*◌, ◌^◌, ◌≤◌, ◌<◌, length, get_or, set, drop};
ghost use Rattle.spec.specs.Bytes.{sum_to, sum};
ghost use Rattle.spec.specs.Transport.{WIDEST, Problem};
ghost use Rattle.cost_matrix.specs.Matrix.{Given, Laid};
ghost use Rattle.net.specs.Net.{NODES, NET};
ghost use Rattle.search_laws.specs.Edges.{MARGINS};
ghost use Rattle.augment.specs.Balance.{Low, RowsLeft, ColumnsLeft, Balanced};
ghost use Rattle.augment.specs.Sending.{Midway, Sent, Start, Answered};
ghost use Rattle.augment.specs.Solved.{Solves};

use augmenting_path::bottleneck;
use cost_matrix::WIDEST;
use net::{NET, NODES};
use numbers::long_u32;
use plan_parts::empty_plan;
use search::{MARGINS, TAKEN, search};
use sending::send;
use tracing::trace;

// ---- what is left at the margins
fn put_left(left: &mut [u64; MARGINS], at: usize, x: u64)
    requires { at < MARGINS }
    ensures { left.new ≡ set left.old at x }
{
    left[at] = x;
}

// The sum of n entries of the plan from place k on, d apart.
fn sum_every(flow: &[u64], k: usize, d: usize, n: usize) -> u64
    requires { (n ≤ WIDEST) × (d ≤ WIDEST) × ((i : ℕ) → i < n → (k + i * d < length flow.now) × (get_or flow.now (k + i * d) 0 < 2 ^ 32)) }
    ensures { result ≡ sum_to n (λ i. get_or flow.now (k + i * d) 0) }
{
    let mut s = 0;
    let mut at = k;
    for i in 0..n {
        s += flow[at];
        at += d;
    }
    s
}

// What the plan leaves of the supplies.
fn fill_rows(supply: &[u32], flow: &[u64], left: &mut [u64; MARGINS], r: usize, c: usize)
    requires { (r ≤ WIDEST) × (c ≤ WIDEST) × (length supply.now ≡ r) × (length left.old ≡ MARGINS) × Low r c flow.now }
    ensures { RowsLeft r c supply.now flow.now left.old left.new r }
{
    for i in 0..r {
        let s = sum_every(flow, i * c, 1, c);
        put_left(left, i, long_u32(supply[i]).saturating_sub(s));
    }
}

// What the plan leaves of the demands, and what the columns have.
fn fill_columns(demand: &[u32], flow: &[u64], left: &mut [u64; MARGINS], r: usize, c: usize)
    requires { (r ≤ WIDEST) × (c ≤ WIDEST) × (length demand.now ≡ c) × (length left.old ≡ MARGINS) × Low r c flow.now }
    ensures { ColumnsLeft r c demand.now flow.now left.new c }
{
    for j in 0..c {
        let s = sum_every(flow, j, c, r);
        put_left(left, WIDEST + j, long_u32(demand[j]).saturating_sub(s));
        put_left(left, TAKEN + j, s);
    }
}

// What is left at the margins.
fn balance(
    supply: &[u32],
    demand: &[u32],
    flow: &[u64],
    left: &mut [u64; MARGINS],
    r: usize,
    c: usize,
)
    requires { (r ≤ WIDEST) × (c ≤ WIDEST) × (length supply.now ≡ r) × (length demand.now ≡ c) × (length left.old ≡ MARGINS) × Low r c flow.now }
    ensures { Balanced r c supply.now demand.now flow.now left.new }
{
    fill_columns(demand, flow, left, r, c);
    fill_rows(supply, flow, left, r, c);
}

// ---- one path after the other
// One path: how many of the units left it takes, 0 where the search does not reach the sink.
fn augment(
    supply: &[u32],
    demand: &[u32],
    costs: &[u64],
    flow: &mut [u64],
    left: &mut [u64; MARGINS],
    net: &mut [u64; NET],
    path: &mut [u64; NODES],
    rest: u64,
) -> u64
    requires { (length supply.now ≤ WIDEST) × (length demand.now ≤ WIDEST) × (3 * (length supply.now * length demand.now) ≤ length costs.now) × (length supply.now * length demand.now ≤ length flow.old) × (length left.old ≡ MARGINS) × (length net.old ≡ NET) × (length path.old ≡ NODES) × (rest < 2 ^ 39)
        × Midway (length supply.now) (length demand.now) supply.now demand.now costs.now flow.old }
    ensures { (length left.new ≡ MARGINS) × (length net.new ≡ NET) × (length path.new ≡ NODES)
        × ((M : Midway (length supply.now) (length demand.now) supply.now demand.now costs.now flow.old) → Sent M rest result flow.new)
        × (drop (length supply.now * length demand.now) flow.new ≡ drop (length supply.now * length demand.now) flow.old) }
{
    let r = supply.len();
    let c = demand.len();
    balance(supply, demand, flow, left, r, c);
    if search(costs, flow, left, net, r, c) {
        let from = trace(net, path, 1 + r + c);
        let n = bottleneck(costs, flow, left, path, r, c, from, rest);
        send(flow, path, r, c, from, n);
        return n;
    }
    0
}

// One path after the other until all units are sent; false where a search does not reach the sink.
fn send_all(supply: &[u32], demand: &[u32], costs: &[u64], flow: &mut [u64], total: u64) -> bool
    requires { (length supply.now ≤ WIDEST) × (length demand.now ≤ WIDEST) × (3 * (length supply.now * length demand.now) ≤ length costs.now) × (length supply.now * length demand.now ≤ length flow.old) × (total ≡ sum supply.now)
        × Start (length supply.now) (length demand.now) supply.now demand.now costs.now flow.old }
    ensures { ((S : Start (length supply.now) (length demand.now) supply.now demand.now costs.now flow.old) → Answered S result flow.new)
        × (drop (length supply.now * length demand.now) flow.new ≡ drop (length supply.now * length demand.now) flow.old) }
{
    let mut left = [0u64; MARGINS];
    let mut net = [0u64; NET];
    let mut path = [0u64; NODES];
    let mut rest = total;
    // no range: each path takes as many units as it can carry
    while 0 < rest {
        let n = augment(
            supply, demand, costs, flow, &mut left, &mut net, &mut path, rest,
        );
        if n == 0 {
            return false;
        }
        rest = rest - n;
    }
    true
}

// The plan where the units are even and no side is empty.
pub fn solve_even(supply: &[u32], demand: &[u32], costs: &[u64], flow: &mut [u64], f: u64) -> bool
    requires { Laid supply.now demand.now costs.now × (3 * (length supply.now * length demand.now) ≤ length costs.now) × (length supply.now * length demand.now ≤ length flow.old)
        × (f ≡ sum supply.now) × (f ≡ sum demand.now) × (0 < length supply.now) × (0 < length demand.now) }
    ensures { (p : Problem) → Given p supply.now demand.now costs.now → Solves p flow.old flow.new result }
{
    let n = supply.len() * demand.len();
    empty_plan(flow, n);
    if send_all(supply, demand, costs, flow, f) {
        return true;
    }
    empty_plan(flow, n);
    false
}
