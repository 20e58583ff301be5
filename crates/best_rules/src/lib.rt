// Rule 9 of the table of refusals, "best member outside its class, or best size wrong or outside its range": the test equals its definition.
#![tactic(auto)]

ghost use Rattle.std.specs.Prelude.{◌≡◌, ◌<◌, ◌≤◌, ◌*◌, length, eqb};
ghost use Rattle.spec.specs.Bytes.{all};
ghost use Rattle.spec.specs.Image.{BEST-SIZE, best_right, best_size, children_of, size_over, tables_of, the_class, the_member};
ghost use Rattle.laws.specs.Valid.{Children, Spans};
ghost use Rattle.image.specs.Loaded.{Loaded, the_child};

use classes::{best_member, best_size, first_member, member_count};
use image::Image;
use members::{child_class, child_count, child_times, first_child};

// count × best size of a child
fn child_size(s: &[u8], im: Image, i: usize) -> u64
    requires { Loaded s.now im × (i < im.children) × ((the_child (tables_of s.now) i).0 < im.classes) }
    ensures { (result ≡ (the_child (tables_of s.now) i).1 * best_size (tables_of s.now) (the_child (tables_of s.now) i).0) × (result ≤ 18446744065119617025) }
{
    child_times(s, im, i) * best_size(s, im, child_class(s, im, i))
}

// "A best size equals 1 plus the sum of count × best size over the best member's children"; the sum is left where it passes every best size.
fn size_right(s: &[u8], im: Image, m: usize, size: u64) -> bool
    requires { Loaded s.now im × (m < im.members) × (size ≤ BEST-SIZE) × Spans (tables_of s.now) × Children (tables_of s.now) }
    ensures { result ≡ eqb size (size_over (tables_of s.now) (children_of (tables_of s.now) (the_member (tables_of s.now) m))) }
{
    let from = first_child(s, im, m);
    let n = child_count(s, im, m);
    let mut sum: u64 = 1;
    for i in 0..n {
        sum = sum + child_size(s, im, from + i);
        if sum > Image::BEST_SIZE {
            return false;
        }
    }
    size == sum
}

fn best_right(s: &[u8], im: Image, c: usize) -> bool
    requires { Loaded s.now im × (c < im.classes) × Spans (tables_of s.now) × Children (tables_of s.now) }
    ensures { result ≡ best_right (tables_of s.now) (the_class (tables_of s.now) c) }
{
    let from = first_member(s, im, c);
    let b = best_member(s, im, c);
    if b < from {
        return false;
    }
    if b >= from + member_count(s, im, c) {
        return false;
    }
    let size = best_size(s, im, c);
    if size < 1 {
        return false;
    }
    if size > Image::BEST_SIZE {
        return false;
    }
    size_right(s, im, b, size)
}

pub fn bests_right(s: &[u8], im: Image) -> bool
    requires { Loaded s.now im × Spans (tables_of s.now) × Children (tables_of s.now) }
    ensures { result ≡ all (best_right (tables_of s.now)) (tables_of s.now).classes }
{
    for c in 0..im.classes {
        if !best_right(s, im, c) {
            return false;
        }
    }
    true
}
