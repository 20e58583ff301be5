// The net of a search (transport.rs): each node's label, its distance from the source, and the first-in first-out queue of the nodes that have a new one.
#![tactic(auto)]

ghost use Rattle.std.specs.Prelude.{◌≡◌, ◌+◌, ◌<◌, slice_set};
ghost use Rattle.net.specs.Net.{NODES, NET, label_of, joined, left, first_of, head_of, count_of};

use cost_matrix::WIDEST;
use wide::Wide;

// The source, the rows, the columns and the sink.
pub const NODES: usize = 2 * WIDEST + 2;

// The net: where the labels' high words stand, the predecessors, the states (0 unseen, 1 seen, 2 queued), the queue's ring, its first place, and how many nodes it holds.
pub const HIGH: usize = NODES;

pub const PRED: usize = 2 * NODES;

pub const STATE: usize = 3 * NODES;

const RING: usize = 4 * NODES;

pub const HEAD: usize = 5 * NODES;

pub const COUNT: usize = 5 * NODES + 1;

pub const NET: usize = 5 * NODES + 2;

// The label of node v.
pub fn label(net: &[u64; NET], v: usize) -> Wide
    requires { v < NODES }
    ensures { result ≡ label_of net.now v }
{
    Wide {
        lo: net[v],
        hi: net[HIGH + v],
    }
}

pub fn put(net: &mut [u64; NET], at: usize, x: u64)
    requires { at < NET }
    ensures { net.new ≡ slice_set net.old at x }
{
    net[at] = x;
}

// Node v joins the queue.
pub fn join(net: &mut [u64; NET], v: usize)
    requires { v < NODES }
    ensures { net.new ≡ joined net.old v }
{
    let at = std::num::wrapping_add_u64(net[HEAD], net[COUNT]) % NODES as u64;
    let n = std::num::wrapping_add_u64(net[COUNT], 1);
    put(net, RING + at as usize, v as u64);
    put(net, STATE + v, 2);
    put(net, COUNT, n);
}

// The first node leaves the queue.
pub fn leave(net: &mut [u64; NET]) -> usize
    requires { (head_of net.old < NODES) × (first_of net.old < NODES) × (0 < count_of net.old) }
    ensures { (result ≡ first_of net.old) × (net.new ≡ left net.old) }
{
    let h = net[HEAD];
    let n = net[COUNT];
    let u = net[RING + h as usize] as usize;
    put(net, STATE + u, 1);
    put(net, HEAD, (h + 1) % NODES as u64);
    put(net, COUNT, n - 1);
    u
}
