// The readers of the image's tables of members and of children.
#![tactic(auto)]

ghost use Rattle.std.specs.Prelude.{◌≡◌, ◌<◌};
ghost use Rattle.spec.specs.Image.{tables_of, the_member};
ghost use Rattle.image.specs.Loaded.{Loaded, the_child};
ghost use Rattle.members.specs.Spans.{child_span};

use image::{Image, Span, be2, be4};

// bytes of a child's entry
pub const CHILD_BYTES: usize = 6;

// ---- a member
pub fn member_op(s: &[u8], im: Image, m: usize) -> usize
    requires { Loaded s.now im × (m < im.members) }
    ensures { (result ≡ (the_member (tables_of s.now) m).op) × (result < 65536) }
{
    be2(s, im.member0 + m * Image::MEMBER_BYTES)
}

pub fn member_value(s: &[u8], im: Image, m: usize) -> u64
    requires { Loaded s.now im × (m < im.members) }
    ensures { (result ≡ (the_member (tables_of s.now) m).value) × (result < 4294967296) }
{
    be4(s, im.member0 + m * Image::MEMBER_BYTES + 2)
}

pub fn first_child(s: &[u8], im: Image, m: usize) -> usize
    requires { Loaded s.now im × (m < im.members) }
    ensures { (result ≡ (the_member (tables_of s.now) m).first) × (result < 65536) }
{
    be2(s, im.member0 + m * Image::MEMBER_BYTES + 6)
}

pub fn child_count(s: &[u8], im: Image, m: usize) -> usize
    requires { Loaded s.now im × (m < im.members) }
    ensures { (result ≡ (the_member (tables_of s.now) m).count) × (result < 65536) }
{
    be2(s, im.member0 + m * Image::MEMBER_BYTES + 8)
}

// ---- a child
pub fn child_class(s: &[u8], im: Image, k: usize) -> usize
    requires { Loaded s.now im × (k < im.children) }
    ensures { (result ≡ (the_child (tables_of s.now) k).0) × (result < 65536) }
{
    be2(s, im.child0 + k * CHILD_BYTES)
}

pub fn child_times(s: &[u8], im: Image, k: usize) -> u64
    requires { Loaded s.now im × (k < im.children) }
    ensures { (result ≡ (the_child (tables_of s.now) k).1) × (result < 4294967296) }
{
    be4(s, im.child0 + k * CHILD_BYTES + 2)
}

// The children of a member, by their numbers.
pub fn children_of(s: &[u8], im: Image, m: usize) -> Span
    requires { Loaded s.now im × (m < im.members) }
    ensures { (result ≡ child_span (the_member (tables_of s.now) m)) × (result.to < 131072) }
{
    let from = first_child(s, im, m);
    Span {
        from,
        to: from + child_count(s, im, m),
    }
}
