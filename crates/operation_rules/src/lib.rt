// Rule 6 of the table of refusals, "an operation entry breaks its rule": the test equals its definition.
#![tactic(auto)]

ghost use Rattle.std.specs.Prelude.{◌≡◌, ◌<◌, length, eqb, ltb};
ghost use Rattle.spec.specs.Bytes.{all, both, either, pick};
ghost use Rattle.spec.specs.Image.{NO-IDENTITY, is_ac, is_commutative, operation_right, tables_of, the_operation};
ghost use Rattle.image.specs.Loaded.{Loaded};

use id::{is_ac, is_commutative};
use image::Image;
use operations::{flag, identity, kind};

// "1 exactly for SPair, MSet, Set, else 0"
fn flag_of(k: usize) -> usize
    ensures { result ≡ pick (is_commutative k) 1 0 }
{
    if is_commutative(k) {
        return 1;
    }
    0
}

// "65,535 for none; a class of the image only for MSet and Set"
fn identity_right(k: usize, e: usize, classes: usize) -> bool
    ensures { result ≡ either (eqb e NO-IDENTITY) (both (is_ac k) (ltb e classes)) }
{
    if e == Image::NO_IDENTITY {
        return true;
    }
    if !is_ac(k) {
        return false;
    }
    e < classes
}

fn operation_right(s: &[u8], im: Image, o: usize) -> bool
    requires { Loaded s.now im × (o < im.operations) }
    ensures { result ≡ operation_right im.classes (the_operation (tables_of s.now) o) }
{
    let k = kind(s, im, o);
    if k >= 10 {
        return false;
    }
    if flag(s, im, o) != flag_of(k) {
        return false;
    }
    identity_right(k, identity(s, im, o), im.classes)
}

pub fn operations_right(s: &[u8], im: Image) -> bool
    requires { Loaded s.now im }
    ensures { result ≡ all (operation_right (length (tables_of s.now).classes)) (tables_of s.now).operations }
{
    for o in 0..im.operations {
        if !operation_right(s, im, o) {
            return false;
        }
    }
    true
}
