// The walk back of a search of the least-cost transport (transport.rs): from the sink by predecessors to the source.
#![tactic(auto)]

ghost use Rattle.std.specs.Prelude.{◌≡◌, [], ◌-◌, ◌≤◌, ◌<◌, length, set};
ghost use Rattle.net.specs.Net.{NODES};
ghost use Rattle.search_laws.specs.Walk.{LAST, steps_from, walk_net, walked_at, walked_path, Leads};

use net::{NET, NODES, PRED};

// The sink's place in the path, which stands at the end of a list of a number a node.
pub const LAST: usize = NODES - 1;

fn put_node(path: &mut [u64; NODES], at: usize, v: usize)
    requires { at < NODES }
    ensures { path.new ≡ set path.old at v }
{
    path[at] = v as u64;
}

// The walk back from the sink t: the place in the path of its first node.
pub fn trace(net: &[u64; NET], path: &mut [u64; NODES], t: usize) -> usize
    requires { Leads net.now LAST t × (length path.old ≡ NODES) }
    ensures { (result ≤ LAST) × (length path.new ≡ NODES) × (steps_from path.new (LAST - result) result ≡ walk_net net.now LAST t [])
        × (result ≡ walked_at net.now LAST t) × (path.new ≡ walked_path net.now LAST t (set path.old LAST t)) }
{
    put_node(path, LAST, t);
    let mut at = LAST;
    let mut v = t;
    // no range: back along the predecessors
    while v != 0 {
        v = net[PRED + v] as usize;
        at -= 1;
        put_node(path, at, v);
    }
    at
}
