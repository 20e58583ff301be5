// The readers of the image's table of classes.
#![tactic(auto)]

ghost use Rattle.std.specs.Prelude.{◌≡◌, ◌<◌};
ghost use Rattle.spec.specs.Image.{tables_of, the_class};
ghost use Rattle.image.specs.Loaded.{Loaded};
ghost use Rattle.classes.specs.Spans.{member_span};

use image::{Image, Span, be2, be4};

pub fn first_member(s: &[u8], im: Image, c: usize) -> usize
    requires { Loaded s.now im × (c < im.classes) }
    ensures { (result ≡ (the_class (tables_of s.now) c).first) × (result < 65536) }
{
    be2(s, im.class0 + c * Image::CLASS_BYTES)
}

pub fn member_count(s: &[u8], im: Image, c: usize) -> usize
    requires { Loaded s.now im × (c < im.classes) }
    ensures { (result ≡ (the_class (tables_of s.now) c).count) × (result < 65536) }
{
    be2(s, im.class0 + c * Image::CLASS_BYTES + 2)
}

pub fn best_member(s: &[u8], im: Image, c: usize) -> usize
    requires { Loaded s.now im × (c < im.classes) }
    ensures { (result ≡ (the_class (tables_of s.now) c).best) × (result < 65536) }
{
    be2(s, im.class0 + c * Image::CLASS_BYTES + 4)
}

pub fn best_size(s: &[u8], im: Image, c: usize) -> u64
    requires { Loaded s.now im × (c < im.classes) }
    ensures { (result ≡ (the_class (tables_of s.now) c).size) × (result < 4294967296) }
{
    be4(s, im.class0 + c * Image::CLASS_BYTES + 6)
}

// The members of a class, by their numbers.
pub fn members_of(s: &[u8], im: Image, c: usize) -> Span
    requires { Loaded s.now im × (c < im.classes) }
    ensures { (result ≡ member_span (the_class (tables_of s.now) c)) × (result.to < 131072) }
{
    let from = first_member(s, im, c);
    Span {
        from,
        to: from + member_count(s, im, c),
    }
}
