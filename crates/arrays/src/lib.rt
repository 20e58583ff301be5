// The arrays of a run: the graph's pairs with an index, and what is known of each pair (`PairGraph` and the qualities of exact_fixed.rs over plain arrays).
#![tactic(auto)]

ghost use Rattle.std.specs.Prelude.{◌≡◌, ◌+◌, ◌*◌, ◌/◌, ◌%◌, ◌≤◌, ◌<◌, length, get_or};
ghost use Rattle.arrays.specs.Arrays.{place_of, number_in, key_of, unkey, quality_in, term_in, Known};

use stores::at_u16;

// How many numbers a pair has in `pairs`: size, mass and term, then those that the round at hand gives it.
pub const WIDTH: usize = 6;

pub const MASS: usize = 1;

pub const TERM: usize = 2;

pub const NEW: usize = 3;

// ---- the graph's array
// Where the number of the pair (l, r) stands among w classes.
pub fn place(w: usize, l: usize, r: usize) -> usize
    requires { (w ≤ 256) × (l < w) × (r < w) }
    ensures { (result ≡ place_of w (l, r)) × (result < w * w) }
{
    l * w + r
}

// Where the keys of the pairs begin.
pub fn keys(w: usize) -> usize
    requires { w ≤ 256 }
    ensures { (result ≡ w * w) × (result ≤ 65536) }
{
    w * w
}

// A pair as one number.
pub fn key(l: usize, r: usize) -> usize
    requires { (l < 256) × (r < 256) }
    ensures { (result ≡ key_of (l, r)) × (result < 65536) }
{
    l * 256 + r
}

// The left class of pair k.
pub fn left_at(graph: &[u16], w: usize, k: usize) -> usize
    requires { (w ≤ 256) × (k < 65536) × (w * w + k < length graph.now) }
    ensures { (result ≡ (unkey (get_or graph.now (w * w + k) 0)).0) × (result < 256) }
{
    at_u16(graph, keys(w) + k) / 256
}

// The right class of pair k.
pub fn right_at(graph: &[u16], w: usize, k: usize) -> usize
    requires { (w ≤ 256) × (k < 65536) × (w * w + k < length graph.now) }
    ensures { (result ≡ (unkey (get_or graph.now (w * w + k) 0)).1) × (result < 256) }
{
    at_u16(graph, keys(w) + k) % 256
}

// ---- what is known of a pair
// Where the numbers of the pair (l, r) begin in `pairs`.
fn begin_of(graph: &[u16], pairs: &[u32], w: usize, l: usize, r: usize) -> usize
    requires { Known w graph.now pairs.now × (l < w) × (r < w) }
    ensures { (result ≡ 6 * number_in w graph.now (l, r)) × (result + 6 ≤ length pairs.now) }
{
    WIDTH * at_u16(graph, place(w, l, r))
}

pub fn size_of(graph: &[u16], pairs: &[u32], w: usize, l: usize, r: usize) -> u32
    requires { Known w graph.now pairs.now × (l < w) × (r < w) }
    ensures { result ≡ (quality_in w graph.now pairs.now (l, r)).0 }
{
    let at = begin_of(graph, pairs, w, l, r);
    pairs[at]
}

pub fn mass_of(graph: &[u16], pairs: &[u32], w: usize, l: usize, r: usize) -> u32
    requires { Known w graph.now pairs.now × (l < w) × (r < w) }
    ensures { result ≡ (quality_in w graph.now pairs.now (l, r)).1 }
{
    let at = begin_of(graph, pairs, w, l, r);
    pairs[at + MASS]
}

pub fn term_of(graph: &[u16], pairs: &[u32], w: usize, l: usize, r: usize) -> u32
    requires { Known w graph.now pairs.now × (l < w) × (r < w) }
    ensures { result ≡ term_in w graph.now pairs.now (l, r) }
{
    let at = begin_of(graph, pairs, w, l, r);
    pairs[at + TERM]
}
