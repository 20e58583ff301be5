// The number of monomial pairs that are passed over for two classes (02, Paper 7), and whether an image can have any.
#![tactic(auto)]

ghost use Rattle.std.specs.Prelude.{◌≡◌, ◌<◌};
ghost use Rattle.spec.specs.Image.{tables_of};
ghost use Rattle.spec.specs.Action.{skipped_at};
ghost use Rattle.laws.specs.Valid.{Valid};
ghost use Rattle.skips.specs.Large.{large};
ghost use Rattle.image.specs.Loaded.{Loaded};

use ac_ops::next_op;
use image::Image;
use skipped_under::skipped_under;

// Under every operation of either class that acts by transport. "A class paired with itself has no actions."
pub fn skipped_at(s: &[u8], im: Image, l: usize, r: usize) -> u64
    requires { Loaded s.now im × Valid (tables_of s.now) × (l < im.classes) × (r < im.classes) }
    ensures { result ≡ skipped_at (tables_of s.now) (l, r) }
{
    if l == r {
        return 0;
    }
    let mut sum: u64 = 0;
    let mut o = next_op(s, im, l, r, 0);
    // no range: o goes on to the next operation that both classes have
    while o < im.operations {
        sum += skipped_under(s, im, l, r, o);
        o = next_op(s, im, l, r, o + 1);
    }
    sum
}

// The counts of all children are above 4,294,967,295 together; of any other image nothing is passed over.
pub fn is_large(s: &[u8], im: Image) -> bool
    requires { Loaded s.now im × Valid (tables_of s.now) }
    ensures { result ≡ large (tables_of s.now) }
{
    let mut sum: u64 = 0;
    for k in 0..im.children {
        sum += members::child_times(s, im, k);
    }
    id::multiplicity::MAX < sum
}
