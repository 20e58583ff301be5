// The verdict on an image: accepted, or the first rule of the table of refusals, 2 to 10, that it breaks.
#![tactic(auto)]

ghost use Rattle.std.specs.Prelude.{◌≡◌, ◌+◌, ◌*◌, ◌<◌, ◌≤◌, ◌^◌, length};
ghost use Rattle.spec.specs.Bytes as b;
ghost use Rattle.spec.specs.Image.{CHILD-BYTES, HEADER, tables_of, tables_rules};
ghost use Rattle.image.specs.Loaded.{Loaded};
ghost use Rattle.judge.specs.Verdict.{counts_within, header_of, verdict_as, verdict_of};

use best_rules::bests_right;
use child_rules::children_right;
use image::{Image, be2, be4};
use literals::doubled;
use numbers::long_size;
use operation_rules::operations_right;
use span_rules::spans_right;

#[derive(Clone, Copy)]
pub enum Verdict {
    Accepted(Image),
    // 2 to 9
    Refused(u8),
    // 10, with the lowest class that holds a literal that also stands in another
    Doubled(usize),
}

fn within(low: usize, high: usize, x: usize) -> bool
    ensures { result ≡ b.within low high x }
{
    if x < low {
        return false;
    }
    x <= high
}

// the layout that the header's counts give
fn header(s: &[u8]) -> Image
    requires { HEADER ≤ length s.now }
    ensures { result ≡ header_of s.now }
{
    Image::of(be2(s, 5), be2(s, 7), be2(s, 9), be2(s, 11))
}

// 4
fn counts_within(im: Image) -> bool
    ensures { result ≡ counts_within im }
{
    if !within(1, Image::OPERATIONS, im.operations) {
        return false;
    }
    if !within(1, Image::CLASSES, im.classes) {
        return false;
    }
    if !within(1, Image::MEMBERS, im.members) {
        return false;
    }
    within(0, Image::CHILDREN, im.children)
}

// where the tables end
fn end(im: Image) -> usize
    requires { im.child0 + im.children * CHILD-BYTES < 2 ^ 63 }
    ensures { result ≡ im.child0 + im.children * CHILD-BYTES }
{
    im.child0 + im.children * members::CHILD_BYTES
}

// 6 to 10
fn tables(s: &[u8], im: Image) -> Verdict
    requires { Loaded s.now im × (im.members < 65536) }
    ensures { result ≡ verdict_as im s.now (tables_rules (tables_of s.now)) }
{
    if !operations_right(s, im) {
        return Verdict::Refused(6);
    }
    if !spans_right(s, im) {
        return Verdict::Refused(7);
    }
    if !children_right(s, im) {
        return Verdict::Refused(8);
    }
    if !bests_right(s, im) {
        return Verdict::Refused(9);
    }
    let c = doubled(s, im);
    if c < im.classes {
        return Verdict::Doubled(c);
    }
    Verdict::Accepted(im)
}

pub fn judge(s: &[u8]) -> Verdict
    ensures { result ≡ verdict_of s.now }
{
    if s.len() < Image::HEADER {
        return Verdict::Refused(2);
    }
    if be4(s, 0) + 4 != long_size(s.len()) {
        return Verdict::Refused(2);
    }
    if s[4] != Image::VERSION {
        return Verdict::Refused(3);
    }
    let im = header(s);
    if !counts_within(im) {
        return Verdict::Refused(4);
    }
    if end(im) != s.len() {
        return Verdict::Refused(5);
    }
    tables(s, im)
}
