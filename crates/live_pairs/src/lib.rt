// The pairs that can improve in a round: both classes are over one that changed in the round before.
#![tactic(auto)]

ghost use Rattle.std.specs.Prelude.{◌≡◌, ◌+◌, ◌*◌, ◌≤◌, ◌<◌, length};
ghost use Rattle.arrays.specs.Arrays.{pairs_in};
ghost use Rattle.live_pairs.specs.Live.{live_in, next_live, due_of};

// pair (l, r) is live
fn live(llive: &[u8; 256], rlive: &[u8; 256], l: usize, r: usize) -> bool
    requires { (l < 256) × (r < 256) }
    ensures { result ≡ live_in llive.now rlive.now (l, r) }
{
    if 0 < llive[l] {
        return 0 < rlive[r];
    }
    false
}

// The first live pair from k on, of the first n pairs of a graph; n if there is none.
pub fn next_live(
    graph: &[u16],
    w: usize,
    n: usize,
    k: usize,
    llive: &[u8; 256],
    rlive: &[u8; 256],
) -> usize
    requires { (w ≤ 256) × (n ≤ 65536) × (w * w + n ≤ length graph.now) × (k ≤ n) }
    ensures { result ≡ next_live (pairs_in w graph.now n) llive.now rlive.now k n }
{
    for j in k..n {
        let l = arrays::left_at(graph, w, j);
        let r = arrays::right_at(graph, w, j);
        if live(llive, rlive, l, r) {
            return j;
        }
    }
    n
}

// The checks of a step from pair k, where j is the next live one: one for each pair that keeps what it has, or one for a live pair.
pub fn due(k: usize, j: usize) -> usize
    ensures { result ≡ due_of k j }
{
    if k < j {
        return j - k;
    }
    1
}
