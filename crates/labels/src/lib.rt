// The labels of a search (transport.rs): how a search begins, and how the edge to a node gives it a lower label, a predecessor and a place in the queue.
#![tactic(auto)]

ghost use Rattle.std.specs.Prelude.{◌≡◌, ◌+◌, ◌≤◌, ◌<◌};
ghost use Rattle.net.specs.Net.{NODES, NET, labelled, offered, improved, relaxed, unseen_to, begun};

use net::{COUNT, HEAD, HIGH, NET, NODES, PRED, STATE, join, label, put};
use wide::Wide;

fn put_label(net: &mut [u64; NET], u: usize, v: usize, d: Wide)
    requires { v < NODES }
    ensures { net.new ≡ labelled net.old u v d }
{
    put(net, v, d.lo);
    put(net, HIGH + v, d.hi);
    put(net, PRED + v, u as u64);
}

// Whether the label d is a strict improvement at node v.
fn improves(net: &[u64; NET], v: usize, d: Wide) -> bool
    requires { v < NODES }
    ensures { result ≡ offered net.now v d }
{
    if net[STATE + v] == 0 {
        return true;
    }
    d.less(label(net, v))
}

// Node v takes the label d from u, and joins the queue unless it stands in it.
fn improve(net: &mut [u64; NET], u: usize, v: usize, d: Wide)
    requires { v < NODES }
    ensures { net.new ≡ improved net.old u v d }
{
    put_label(net, u, v, d);
    if net[STATE + v] == 2 {
        return;
    }
    join(net, v);
}

// The edge from u to v, with the label d at its end.
pub fn relax(net: &mut [u64; NET], u: usize, v: usize, d: Wide)
    requires { v < NODES }
    ensures { net.new ≡ relaxed net.old u v d }
{
    if improves(net, v, d) {
        improve(net, u, v, d);
        return;
    }
}

// n nodes are unseen.
fn unsee(net: &mut [u64; NET], n: usize)
    requires { n ≤ NODES }
    ensures { net.new ≡ unseen_to n 0 net.old }
{
    for i in 0..n {
        put(net, STATE + i, 0);
    }
}

// The nodes up to t are unseen; then the source has the label 0 and stands in the queue.
pub fn begin(net: &mut [u64; NET], t: usize)
    requires { t < NODES }
    ensures { net.new ≡ begun t net.old }
{
    unsee(net, t + 1);
    put(net, HEAD, 0);
    put(net, COUNT, 0);
    put_label(net, 0, 0, Wide { lo: 0, hi: 0 });
    join(net, 0);
}
