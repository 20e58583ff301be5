// One search of the least-cost transport (transport.rs): labels by a first-in first-out queue. No network is built: edges are read off the plan so far.
#![tactic(auto)]

ghost use Rattle.std.specs.Prelude.{◌≡◌, not, ◌+◌, ◌*◌, ◌≤◌, ◌<◌, eqb, length};
ghost use Rattle.spec.specs.Transport.{WIDEST};
ghost use Rattle.net.specs.Net.{NODES, NET, label_of, state_of};
ghost use Rattle.search_laws.specs.Edges.{MARGINS, along_margin, along_cell, against_cell, spread_to, along_row, against_column, visited, searched_net};
ghost use Rattle.search_laws.specs.Holds.{Ready, Found};

use cost_matrix::{WIDEST, cost};
use labels::{begin, relax};
use net::{COUNT, NET, NODES, PRED, STATE, label, leave};
use wide::Wide;

// What is left at the margins: a number for each row's supply, then for each column's demand, then what each column has.
pub const TAKEN: usize = 2 * WIDEST;

pub const MARGINS: usize = 3 * WIDEST;

// An edge at a margin, on which r is left: it costs nothing.
fn along_margin(net: &mut [u64; NET], r: u64, u: usize, v: usize, d: Wide)
    requires { v < NODES }
    ensures { net.new ≡ along_margin r net.old u v d }
{
    if 0 < r {
        relax(net, u, v, d);
        return;
    }
}

// From a row to a column, where cell k can take more.
fn along_cell(
    costs: &[u64],
    flow: &[u64],
    net: &mut [u64; NET],
    k: usize,
    u: usize,
    v: usize,
    d: Wide,
)
    requires { (v < NODES) × (3 * k + 2 < length costs.now) × (k < length flow.now) }
    ensures { net.new ≡ along_cell costs.now flow.now net.old k u v d }
{
    if flow[k] < costs[3 * k + 2] {
        relax(net, u, v, d.wrapping_add(cost(costs, k)));
        return;
    }
}

// From a column back to a row, where cell k has something, at the negated cost.
fn against_cell(
    costs: &[u64],
    flow: &[u64],
    net: &mut [u64; NET],
    k: usize,
    u: usize,
    v: usize,
    d: Wide,
)
    requires { (v < NODES) × (3 * k + 2 < length costs.now) × (k < length flow.now) }
    ensures { net.new ≡ against_cell costs.now flow.now net.old k u v d }
{
    if 0 < flow[k] {
        let c = cost(costs, k);
        relax(net, u, v, d.wrapping_add(c.wrapping_neg()));
        return;
    }
}

// n edges at the margins from place k on, to the nodes from v on.
fn spread(left: &[u64; MARGINS], net: &mut [u64; NET], n: usize, k: usize, u: usize, v: usize)
    requires { (u < NODES) × (v + n ≤ NODES) × (k + n ≤ MARGINS) }
    ensures { net.new ≡ spread_to left.now u (label_of net.old u) n k v net.old }
{
    let d = label(net, u);
    for i in 0..n {
        along_margin(net, left[k + i], u, v + i, d);
    }
}

// The cells of a row from cell k on, to the columns from node v on.
fn along_row(
    costs: &[u64],
    flow: &[u64],
    net: &mut [u64; NET],
    n: usize,
    k: usize,
    u: usize,
    v: usize,
)
    requires { (u < NODES) × (v + n ≤ NODES) × (3 * (k + n) ≤ length costs.now) × (k + n ≤ length flow.now) }
    ensures { net.new ≡ along_row costs.now flow.now u (label_of net.old u) n k v net.old }
{
    let d = label(net, u);
    for i in 0..n {
        along_cell(costs, flow, net, k + i, u, v + i, d);
    }
}

// The cells of a column from cell k on, c apart, back to the rows from node v on.
fn against_column(
    costs: &[u64],
    flow: &[u64],
    net: &mut [u64; NET],
    c: usize,
    n: usize,
    k: usize,
    u: usize,
    v: usize,
)
    requires { (u < NODES) × (v + n ≤ NODES) × (k < c) × (c ≤ WIDEST) × (3 * (n * c) ≤ length costs.now) × (n * c ≤ length flow.now) }
    ensures { net.new ≡ against_column costs.now flow.now c u (label_of net.old u) n k v net.old }
{
    let d = label(net, u);
    let mut at = k;
    for i in 0..n {
        against_cell(costs, flow, net, at, u, v + i, d);
        at += c;
    }
}

// All the edges of node u in insertion order, for r rows and c columns; a row's edge back to the source never improves.
fn visit(
    costs: &[u64],
    flow: &[u64],
    left: &[u64; MARGINS],
    net: &mut [u64; NET],
    r: usize,
    c: usize,
    u: usize,
)
    requires { (r ≤ WIDEST) × (c ≤ WIDEST) × (3 * (r * c) ≤ length costs.now) × (r * c ≤ length flow.now) }
    ensures { net.new ≡ visited costs.now flow.now left.now r c u net.old }
{
    if u == 0 {
        spread(left, net, r, 0, 0, 1);
        return;
    }
    if u <= r {
        along_row(costs, flow, net, c, (u - 1) * c, u, 1 + r);
        return;
    }
    if u <= r + c {
        let d = label(net, u);
        along_margin(net, left[WIDEST + (u - 1 - r)], u, 1 + r + c, d);
        against_column(costs, flow, net, c, r, u - 1 - r, u, 1);
        return;
    }
    spread(left, net, c, TAKEN, 1 + r + c, 1 + r);
}

// One search from the source over the plan so far: whether it reaches the sink.
pub fn search(
    costs: &[u64],
    flow: &[u64],
    left: &[u64; MARGINS],
    net: &mut [u64; NET],
    r: usize,
    c: usize,
) -> bool
    requires { (r ≤ WIDEST) × (c ≤ WIDEST) × (3 * (r * c) ≤ length costs.now) × (r * c ≤ length flow.now) × (length net.old ≡ NET) × Ready r c costs.now flow.now left.now }
    ensures { (net.new ≡ searched_net costs.now flow.now left.now r c net.old) × (result ≡ not (eqb (state_of net.new (1 + r + c)) 0))
        × ((R : Ready r c costs.now flow.now left.now) → Found R net.new result) }
{
    begin(net, 1 + r + c);
    // no range: the queue grows while it is read
    while 0 < net[COUNT] {
        let u = leave(net);
        visit(costs, flow, left, net, r, c, u);
    }
    if net[STATE + (1 + r + c)] == 0 {
        return false;
    }
    true
}
