// How many structural actions two members of an image give (actions.rs under `without_ac_actions`).
#![tactic(auto)]

ghost use Rattle.std.specs.Prelude.{◌≡◌, ◌<◌, eqb, length, get_or};
ghost use Rattle.spec.specs.Image.{tables_of, the_member, kind_of, SPair};
ghost use Rattle.spec.specs.Action.{align_members, straight_and_crossed};
ghost use Rattle.laws.specs.Valid.{Valid};
ghost use Rattle.image.specs.Loaded.{Loaded};
ghost use Rattle.alignment.specs.Members.{child_classes};

use id::{LIT, SPAIR, is_ac};
use image::Image;
use members::{child_class, child_count, first_child, member_op};
use operations::kind;

// Both children of an SPair are one class.
fn twins(s: &[u8], im: Image, m: usize) -> bool
    requires { Loaded s.now im × Valid (tables_of s.now) × (m < im.members) × (kind_of (tables_of s.now) (the_member (tables_of s.now) m).op ≡ SPair) }
    ensures { result ≡ eqb (get_or (child_classes (tables_of s.now) m) 0 0) (get_or (child_classes (tables_of s.now) m) 1 0) }
{
    let i = first_child(s, im, m);
    child_class(s, im, i) == child_class(s, im, i + 1)
}

// "SPair pairs them straight and, where neither side's two classes are equal, crossed": how many actions that gives.
fn both_ways(s: &[u8], im: Image, a: usize, b: usize) -> usize
    requires { Loaded s.now im × Valid (tables_of s.now) × (a < im.members) × (b < im.members) × (kind_of (tables_of s.now) (the_member (tables_of s.now) a).op ≡ SPair) × (kind_of (tables_of s.now) (the_member (tables_of s.now) b).op ≡ SPair) }
    ensures { result ≡ length (straight_and_crossed (the_member (tables_of s.now) a).op (child_classes (tables_of s.now) a) (child_classes (tables_of s.now) b)) }
{
    if twins(s, im, a) {
        return 1;
    }
    if twins(s, im, b) {
        return 1;
    }
    2
}

// How many actions two members give.
pub fn aligned(s: &[u8], im: Image, a: usize, b: usize) -> usize
    requires { Loaded s.now im × Valid (tables_of s.now) × (a < im.members) × (b < im.members) }
    ensures { result ≡ length (align_members (tables_of s.now) (the_member (tables_of s.now) a) (the_member (tables_of s.now) b)) }
{
    let o = member_op(s, im, a);
    if member_op(s, im, b) != o {
        return 0;
    }
    let k = kind(s, im, o);
    if k == SPAIR {
        return both_ways(s, im, a, b);
    }
    if is_ac(k) {
        return 0;
    }
    if k == LIT {
        return 0;
    }
    if child_count(s, im, a) != child_count(s, im, b) {
        return 0;
    }
    1
}
