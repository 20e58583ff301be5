// Rule 10 of the table of refusals, "a literal in two classes": the lowest class that holds a literal that also stands in another. The first class with a literal of a later one is it.
#![tactic(auto)]

ghost use Rattle.std.specs.Prelude.{◌≡◌, ◌+◌, ◌<◌, length};
ghost use Rattle.spec.specs.Image.{lowest_doubled, tables_of};
ghost use Rattle.laws.specs.Valid.{Spans};
ghost use Rattle.image.specs.Loaded.{Loaded};
ghost use Rattle.class_literals.specs.Slots.{Marks, SLOTS};

use class_literals::{class_doubled, slot};
use image::Image;
use members::{member_op, member_value};
use stores::put_u16;

// In each slot the number after that of the last member marked there: no later member has a literal of this slot.
fn mark(s: &[u8], im: Image, last: &mut [u16; 4093])
    requires { Loaded s.now im × (im.members < 65536) × (length last.old ≡ SLOTS) }
    ensures { Marks (tables_of s.now) last.new }
{
    for m in 0..im.members {
        let at = slot(member_op(s, im, m), member_value(s, im, m));
        put_u16(last, at, m + 1);
    }
}

// the first class with a literal of a later one, or the number of classes
fn first_doubled(s: &[u8], im: Image, last: &[u16; 4093]) -> usize
    requires { Loaded s.now im × Spans (tables_of s.now) × Marks (tables_of s.now) last.now }
    ensures { result ≡ lowest_doubled (tables_of s.now) }
{
    for c in 0..im.classes {
        if class_doubled(s, im, last, c) {
            return c;
        }
    }
    im.classes
}

// the lowest class that holds a literal that also stands in another, or the number of classes
pub fn doubled(s: &[u8], im: Image) -> usize
    requires { Loaded s.now im × Spans (tables_of s.now) × (im.members < 65536) }
    ensures { result ≡ lowest_doubled (tables_of s.now) }
{
    let mut last = [0u16; 4093];
    mark(s, im, &mut last);
    first_doubled(s, im, &last)
}
