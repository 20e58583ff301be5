// The two monomials of a representation pair (ac_repr.rs), padded: at a state of the walk (crate ac_repr).
// From `first`, over `next`, to `None` the actions that `monomials` finds are the transports of the two classes, in order (specs/Transports: left-first, left-next, left-end; specs/Sides: action-one, action-none).
#![tactic(auto)]

ghost use Rattle.std.specs.Prelude.{◌≡◌, ◌<◌, length};
ghost use Rattle.spec.specs.Image.{tables_of};
ghost use Rattle.laws.specs.Valid.{Valid};
ghost use Rattle.image.specs.Loaded.{Loaded};
ghost use Rattle.monomial_terms.specs.Terms.{NUMBERS};
ghost use Rattle.ac_monomials.specs.Actions.{Answered};

use ac_repr::Walk;
use image::Image;
use monomial::of_place;
use padding::pad_pair;

pub fn monomials(
    s: &[u8],
    im: Image,
    l: usize,
    r: usize,
    w: Walk,
    left: &mut [u64],
    right: &mut [u64],
) -> Option<(usize, usize)>
    requires { Loaded s.now im × Valid (tables_of s.now) × (l < im.classes) × (r < im.classes) × (w.op < im.operations) × (length left.old ≡ NUMBERS) × (length right.old ≡ NUMBERS) }
    ensures { Answered (tables_of s.now) l r w left.old right.old left.new right.new result }
{
    let n = of_place(s, im, l, w.a, left);
    let m = of_place(s, im, r, w.b, right);
    let id = operations::identity(s, im, w.op);
    pad_pair(id, l, r, left, n, right, m)
}
