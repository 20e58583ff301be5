// The end of a round: what it gave its pairs becomes what they have, and which pairs can improve in the next one.
#![tactic(auto)]

ghost use Rattle.std.specs.Prelude.{◌≡◌, ◌+◌, ◌*◌, ◌≤◌, ◌<◌, length};
ghost use Rattle.spec.specs.Image.{tables_of};
ghost use Rattle.laws.specs.Valid.{Valid};
ghost use Rattle.image.specs.Loaded.{Loaded};
ghost use Rattle.pair_settling.specs.Settling.{left, right, marks_of, settled, Ends};

use image::Image;
use pair_settling::{differs, mark, settle_one};

// every pair has what the round gives it; the classes of those that changed are marked
fn settle(
    graph: &[u16],
    w: usize,
    n: usize,
    pairs: &mut [u32],
    lmarks: &mut [u8],
    rmarks: &mut [u8],
)
    requires { (w ≤ 256) × (n ≤ 65536) × (w * w + n ≤ length graph.now) × (6 * n ≤ length pairs.old) × (256 ≤ length lmarks.old) × (256 ≤ length rmarks.old) }
    ensures { (pairs.new ≡ settled pairs.old n) × (lmarks.new ≡ marks_of left w graph.now pairs.old lmarks.old n) × (rmarks.new ≡ marks_of right w graph.now pairs.old rmarks.old n) }
{
    for k in 0..n {
        let c = differs(pairs, k);
        mark(c, graph, w, k, lmarks, rmarks);
        settle_one(c, pairs, k);
    }
}

// After a round over n pairs: its qualities and terms become those of its pairs, and the classes over one that changed are live.
pub fn end_round(
    s: &[u8],
    im: Image,
    graph: &[u16],
    n: usize,
    pairs: &mut [u32],
    llive: &mut [u8; 256],
    rlive: &mut [u8; 256],
)
    requires { Loaded s.now im × Valid (tables_of s.now) × (n ≤ 65536) × (im.classes * im.classes + n ≤ length graph.now) × (6 * n ≤ length pairs.old) }
    ensures { Ends (tables_of s.now) im.classes graph.now n pairs.old llive.old rlive.old pairs.new llive.new rlive.new }
{
    let mut lmarks = [0u8; 256];
    let mut rmarks = [0u8; 256];
    let w = im.classes;
    settle(graph, w, n, pairs, &mut lmarks, &mut rmarks);
    changes::touch_all(s, im, &lmarks, llive);
    changes::touch_all(s, im, &rmarks, rlive);
}
