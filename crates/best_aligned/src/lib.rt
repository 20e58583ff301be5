// The best structural action of a pair (exact_fixed.rs).
#![tactic(auto)]

ghost use Rattle.std.specs.Prelude.{◌≡◌, ◌<◌};
ghost use Rattle.spec.specs.Image.{tables_of};
ghost use Rattle.laws.specs.Valid.{Valid};
ghost use Rattle.arrays.specs.Arrays.{Known, quality_in};
ghost use Rattle.image.specs.Loaded.{Loaded};
ghost use Rattle.best_aligned.specs.Aligned.{best_aligned};

use arrays::{mass_of, size_of};
use enumeration::{seek, start};
use image::Image;
use numbers::long_u32;
use quality::{Best, How, offer};

// The pair's own quality, or the first strictly best of its structural actions.
pub fn best_aligned(s: &[u8], im: Image, graph: &[u16], pairs: &[u32], l: usize, r: usize) -> Best
    requires { Loaded s.now im × Valid (tables_of s.now) × (l < im.classes) × (r < im.classes) × Known im.classes graph.now pairs.now }
    ensures { result ≡ best_aligned (tables_of s.now) (quality_in im.classes graph.now pairs.now) (l, r) }
{
    let mut best = Best {
        size: long_u32(size_of(graph, pairs, im.classes, l, r)),
        mass: long_u32(mass_of(graph, pairs, im.classes, l, r)),
        how: How::Stay,
    };
    let mut w = start(s, im, l, r);
    while let Some(v) = seek(s, im, l, r, w) {
        best = offer(s, im, v, graph, pairs, best);
        w = v.after();
    }
    best
}
