// A pair entered in the pair graph. The graph stands in one array over w classes: at l * w + r the number of the pair (l, r); from w * w on, at k, the key of pair k.
// The array is cleared first, so a pair is known exactly if the pair with its number there has its key.
#![tactic(auto)]

ghost use Rattle.std.specs.Prelude.{◌≡◌, ◌+◌, ◌*◌, ◌≤◌, ◌<◌, length};
ghost use Rattle.spec.specs.Bytes.{any, same_two};
ghost use Rattle.query.specs.Settings.{limits_of};
ghost use Rattle.arrays.specs.Arrays.{pairs_in};
ghost use Rattle.entering.specs.Entered.{with_pair};
ghost use Rattle.entering.specs.Growing.{Small, Laid, Graph, Enters};

use arrays::{key, keys, place};
use query::Limits;
use stores::{at_u16, put_u16};

// The pair (l, r) is one of the n.
fn known(graph: &[u16], w: usize, n: usize, l: usize, r: usize) -> bool
    requires { Laid w n graph.now × Small w (l, r) }
    ensures { result ≡ any (same_two (l, r)) (pairs_in w graph.now n) }
{
    let k = at_u16(graph, place(w, l, r));
    if k >= n {
        return false;
    }
    at_u16(graph, keys(w) + k) == key(l, r)
}

// The pair (l, r) as number n.
fn append(graph: &mut [u16], w: usize, n: usize, l: usize, r: usize)
    requires { (w ≤ 256) × (n < 4096) × (w * w + n < length graph.old) × Small w (l, r) }
    ensures { graph.new ≡ with_pair w n (l, r) graph.old }
{
    put_u16(graph, place(w, l, r), n);
    put_u16(graph, keys(w) + n, key(l, r));
}

// "Its n pairs are counted once each": how many there are now; None: refusal 12.
pub fn enter_pair(
    lim: Limits,
    w: usize,
    graph: &mut [u16],
    n: usize,
    l: usize,
    r: usize,
) -> Option<usize>
    requires { Graph (limits_of lim) w n graph.old × Small w (l, r) }
    ensures { Enters (limits_of lim) w n (l, r) graph.old graph.new result }
{
    if known(graph, w, n, l, r) {
        return Some(n);
    }
    if n >= lim.pairs {
        return None;
    }
    append(graph, w, n, l, r);
    Some(n + 1)
}
