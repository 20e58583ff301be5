// The quality of a structural action (exact_fixed.rs), and which of two is better.
#![tactic(auto)]

ghost use Rattle.std.specs.Prelude.{◌≡◌};
ghost use Rattle.spec.specs.Image.{tables_of};
ghost use Rattle.spec.specs.Round as round;
ghost use Rattle.laws.specs.Valid.{Valid};
ghost use Rattle.arrays.specs.Arrays.{Known, quality_in};
ghost use Rattle.image.specs.Loaded.{Loaded};
ghost use Rattle.actions.specs.Place.{Stands, action_at};
ghost use Rattle.quality.specs.Offer.{offer_at, structural_quality};

use actions::{State, count, left_class, right_class};
use arrays::{mass_of, size_of};
use image::Image;
use numbers::long_u32;

// What a pair's turn chose: nothing better; a structural action; a plan by its operation and how many runs of it stand in the list.
#[derive(Clone, Copy)]
pub enum How {
    Stay,
    Aligned(State),
    Plan(usize, usize),
}

// The best quality so far and where it comes from.
#[derive(Clone, Copy)]
pub struct Best {
    pub size: u64,
    pub mass: u64,
    pub how: How,
}

// The quality of an action.
#[derive(Clone, Copy)]
struct Quality {
    size: u64,
    mass: u64,
}

// "compared by size, then mass"
pub fn better(size: u64, mass: u64, b: Best) -> bool
    ensures { result ≡ round.better (size, mass) (b.size, b.mass) }
{
    if size < b.size {
        return true;
    }
    if b.size < size {
        return false;
    }
    mass < b.mass
}

// "An action gives 1 plus the sum of count × size, and the sum of count × mass."
fn structural_quality(s: &[u8], im: Image, v: State, graph: &[u16], pairs: &[u32]) -> Quality
    requires { Loaded s.now im × Valid (tables_of s.now) × Stands (tables_of s.now) v × Known im.classes graph.now pairs.now }
    ensures { (result.size, result.mass) ≡ structural_quality (quality_in im.classes graph.now pairs.now) (action_at (tables_of s.now) v) }
{
    let m = count(s, im, v);
    let mut size = 1;
    let mut mass = 0;
    for k in 0..m {
        let l = left_class(s, im, v, k);
        let r = right_class(s, im, v, k);
        size += long_u32(size_of(graph, pairs, im.classes, l, r));
        mass += long_u32(mass_of(graph, pairs, im.classes, l, r));
    }
    Quality { size, mass }
}

// "a strictly better action replaces"
pub fn offer(s: &[u8], im: Image, v: State, graph: &[u16], pairs: &[u32], b: Best) -> Best
    requires { Loaded s.now im × Valid (tables_of s.now) × Stands (tables_of s.now) v × Known im.classes graph.now pairs.now }
    ensures { result ≡ offer_at (tables_of s.now) (quality_in im.classes graph.now pairs.now) v b }
{
    let q = structural_quality(s, im, v, graph, pairs);
    if better(q.size, q.mass, b) {
        return Best {
            size: q.size,
            mass: q.mass,
            how: How::Aligned(v),
        };
    }
    b
}
