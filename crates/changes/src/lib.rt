// Which classes can improve in the next round: those whose actions are over a class that changed in this one.
#![tactic(auto)]

ghost use Rattle.std.specs.Prelude.{◌≡◌, ◌≤◌, ◌<◌, length};
ghost use Rattle.spec.specs.Bytes.{any, both, each};
ghost use Rattle.spec.specs.Image.{tables_of, the_operation, the_member, members_of, children_of};
ghost use Rattle.spec.specs.Monomial.{classes};
ghost use Rattle.laws.specs.Valid.{Valid};
ghost use Rattle.laws.specs.Buffers.{over};
ghost use Rattle.lgg.specs.Parts.{identities, identity_in, parts_of};
ghost use Rattle.image.specs.Loaded.{Loaded};
ghost use Rattle.changes.specs.Marks.{marked_in, non_empty, live_of};

use classes::members_of;
use image::Image;
use members::{child_class, children_of};
use operations::identity;

fn marked(marks: &[u8], c: usize) -> bool
    requires { c < length marks.now }
    ensures { result ≡ marked_in marks.now c }
{
    0 < marks[c]
}

// ---- the members of a class
// A child of member m is of a marked class.
fn any_child(s: &[u8], im: Image, m: usize, marks: &[u8]) -> bool
    requires { Loaded s.now im × Valid (tables_of s.now) × (m < im.members) × (256 ≤ length marks.now) }
    ensures { result ≡ any (marked_in marks.now) (classes (children_of (tables_of s.now) (the_member (tables_of s.now) m))) }
{
    let span = children_of(s, im, m);
    let to = span.to;
    for k in span.from..to {
        if marked(marks, child_class(s, im, k)) {
            return true;
        }
    }
    false
}

// A member of class c has such a child.
fn any_member(s: &[u8], im: Image, c: usize, marks: &[u8]) -> bool
    requires { Loaded s.now im × Valid (tables_of s.now) × (c < im.classes) × (256 ≤ length marks.now) }
    ensures { result ≡ any (marked_in marks.now) (each (λ m. classes (children_of (tables_of s.now) m)) (members_of (tables_of s.now) c)) }
{
    let span = members_of(s, im, c);
    let to = span.to;
    for m in span.from..to {
        if any_child(s, im, m, marks) {
            return true;
        }
    }
    false
}

// ---- identities
// Operation o has an identity, and it is marked.
fn marked_identity(s: &[u8], im: Image, o: usize, marks: &[u8]) -> bool
    requires { Loaded s.now im × Valid (tables_of s.now) × (o < im.operations) × (256 ≤ length marks.now) }
    ensures { result ≡ any (marked_in marks.now) (identity_in (the_operation (tables_of s.now) o)) }
{
    let e = identity(s, im, o);
    if e == Image::NO_IDENTITY {
        return false;
    }
    marked(marks, e)
}

// Some identity is marked.
fn any_identity(s: &[u8], im: Image, marks: &[u8]) -> bool
    requires { Loaded s.now im × Valid (tables_of s.now) × (256 ≤ length marks.now) }
    ensures { result ≡ any (marked_in marks.now) (identities (tables_of s.now)) }
{
    let n = im.operations;
    for o in 0..n {
        if marked_identity(s, im, o, marks) {
            return true;
        }
    }
    false
}

// Some operation has an identity.
fn has_identity(s: &[u8], im: Image) -> bool
    requires { Loaded s.now im }
    ensures { result ≡ non_empty (identities (tables_of s.now)) }
{
    let n = im.operations;
    for o in 0..n {
        if identity(s, im, o) != Image::NO_IDENTITY {
            return true;
        }
    }
    false
}

// ---- all classes
// Class c may stand for a member, and it is marked.
fn marked_itself(marks: &[u8], c: usize, itself: bool) -> bool
    requires { c < length marks.now }
    ensures { result ≡ both itself (marked_in marks.now c) }
{
    if itself {
        return marked(marks, c);
    }
    false
}

// The actions of class c are over a marked class. `through`: an identity is marked; `itself`: an operation has an identity.
fn touched(s: &[u8], im: Image, c: usize, marks: &[u8], through: bool, itself: bool) -> bool
    requires { Loaded s.now im × Valid (tables_of s.now) × (c < im.classes) × (256 ≤ length marks.now) × (through ≡ any (marked_in marks.now) (identities (tables_of s.now))) × (itself ≡ non_empty (identities (tables_of s.now))) }
    ensures { result ≡ any (marked_in marks.now) (parts_of (tables_of s.now) c) }
{
    if through {
        return true;
    }
    if marked_itself(marks, c, itself) {
        return true;
    }
    any_member(s, im, c, marks)
}

// For each class 1 if its actions are over a marked class, otherwise 0.
pub fn touch_all(s: &[u8], im: Image, marks: &[u8], live: &mut [u8])
    requires { Loaded s.now im × Valid (tables_of s.now) × (256 ≤ length marks.now) × (256 ≤ length live.old) }
    ensures { live.new ≡ over (live_of (tables_of s.now) marks.now) live.old }
{
    let through = any_identity(s, im, marks);
    let itself = has_identity(s, im);
    let n = im.classes;
    for c in 0..n {
        live[c] = u8::from(touched(s, im, c, marks, through, itself));
    }
}
