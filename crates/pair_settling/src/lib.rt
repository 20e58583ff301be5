// One pair at the end of a round: whether what the round gives it differs from what it has, its classes marked, and what it is given.
#![tactic(auto)]

ghost use Rattle.std.specs.Prelude.{◌≡◌, ◌+◌, ◌*◌, ◌≤◌, ◌<◌, length, get_or};
ghost use Rattle.arrays.specs.Arrays.{unkey};
ghost use Rattle.pair_settling.specs.Settling.{differs_at, marked_by, left, right, settled_at, moved_by};

use arrays::{MASS, NEW, TERM, WIDTH};

// the round gives pair k another size or mass than it has
pub fn differs(pairs: &[u32], k: usize) -> bool
    requires { (k < 65536) × (6 * k + 6 ≤ length pairs.now) }
    ensures { result ≡ differs_at pairs.now k }
{
    let at = WIDTH * k;
    if pairs[at] != pairs[at + NEW] {
        return true;
    }
    if pairs[at + MASS] != pairs[at + NEW + MASS] {
        return true;
    }
    false
}

// pair k marks its classes where it changed
pub fn mark(changed: bool, graph: &[u16], w: usize, k: usize, lmarks: &mut [u8], rmarks: &mut [u8])
    requires { (w ≤ 256) × (k < 65536) × (w * w + k < length graph.now) × (256 ≤ length lmarks.old) × (256 ≤ length rmarks.old) }
    ensures { (lmarks.new ≡ marked_by changed lmarks.old (left (unkey (get_or graph.now (w * w + k) 0)))) × (rmarks.new ≡ marked_by changed rmarks.old (right (unkey (get_or graph.now (w * w + k) 0)))) }
{
    if changed {
        let l = arrays::left_at(graph, w, k);
        let r = arrays::right_at(graph, w, k);
        lmarks[l] = 1;
        rmarks[r] = 1;
    }
}

// a pair has other numbers now: its size or mass changed, or its term is another one
fn moved(changed: bool, old: u32, new: u32) -> bool
    ensures { result ≡ moved_by changed old new }
{
    if changed {
        return true;
    }
    old != new
}

// pair k has what the round gives it; most pairs have it already
pub fn settle_one(changed: bool, pairs: &mut [u32], k: usize)
    requires { (k < 65536) × (6 * k + 6 ≤ length pairs.old) × (changed ≡ differs_at pairs.old k) }
    ensures { pairs.new ≡ settled_at pairs.old pairs.old k }
{
    let at = WIDTH * k;
    let size = pairs[at + NEW];
    let mass = pairs[at + NEW + MASS];
    let term = pairs[at + NEW + TERM];
    if moved(changed, pairs[at + TERM], term) {
        giving::give(pairs, at, size, mass, term);
    }
}
