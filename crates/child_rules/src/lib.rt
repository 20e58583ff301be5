// Rule 8 of the table of refusals, "a child entry or arity breaks its rule": the test equals its definition.
#![tactic(auto)]

ghost use Rattle.std.specs.Prelude.{◌≡◌, ◌<◌, length};
ghost use Rattle.spec.specs.Bytes.{all};
ghost use Rattle.spec.specs.Image.{child_right, children_of, children_right, kind_of, member_right, tables_of, the_member};
ghost use Rattle.laws.specs.Valid.{Spans};
ghost use Rattle.child_rules.specs.Member.{member_children_right};
ghost use Rattle.image.specs.Loaded.{Loaded, the_child};

use id::{MSET, arity_right};
use image::Image;
use members::{child_class, child_count, child_times, first_child, member_op};
use operations::kind;

// "class of the image, count (at least 1; only MSet may exceed 1)"
fn child_right(s: &[u8], im: Image, k: usize, i: usize) -> bool
    requires { Loaded s.now im × (i < im.children) }
    ensures { result ≡ child_right (tables_of s.now) k (the_child (tables_of s.now) i) }
{
    if child_class(s, im, i) >= im.classes {
        return false;
    }
    let n = child_times(s, im, i);
    if n < 1 {
        return false;
    }
    if n == 1 {
        return true;
    }
    k == MSET
}

fn own_right(s: &[u8], im: Image, k: usize, m: usize) -> bool
    requires { Loaded s.now im × (m < im.members) × Spans (tables_of s.now) }
    ensures { result ≡ all (child_right (tables_of s.now) k) (children_of (tables_of s.now) (the_member (tables_of s.now) m)) }
{
    let from = first_child(s, im, m);
    let n = child_count(s, im, m);
    for i in 0..n {
        if !child_right(s, im, k, from + i) {
            return false;
        }
    }
    true
}

// the arity of the member's kind, and its children
fn member_children_right(s: &[u8], im: Image, m: usize) -> bool
    requires { Loaded s.now im × (m < im.members) × Spans (tables_of s.now) }
    ensures { result ≡ member_children_right (tables_of s.now) (the_member (tables_of s.now) m) }
{
    let k = kind(s, im, member_op(s, im, m));
    if !arity_right(k, child_count(s, im, m)) {
        return false;
    }
    own_right(s, im, k, m)
}

pub fn children_right(s: &[u8], im: Image) -> bool
    requires { Loaded s.now im × Spans (tables_of s.now) }
    ensures { result ≡ children_right (tables_of s.now) }
{
    for m in 0..im.members {
        if !member_children_right(s, im, m) {
            return false;
        }
    }
    true
}
