// Monomials of members (ac_repr.rs): sums lined up class by class, in a lent buffer.
#![tactic(auto)]

ghost use Rattle.std.specs.Prelude.{◌≡◌, ◌<◌, length};
ghost use Rattle.spec.specs.Image.{tables_of, the_member, children_of};
ghost use Rattle.spec.specs.Monomial.{insert_add, monomial, itself};
ghost use Rattle.laws.specs.Valid.{Valid};
ghost use Rattle.image.specs.Loaded.{Loaded, the_child};
ghost use Rattle.monomial_terms.specs.Terms.{NUMBERS, held, Holds, Roomy};
ghost use Rattle.monomial.specs.Places.{Made, monomial_at};

use child_list::add_class;
use image::Image;
use numbers::long_size;

// Child k of the image, added to the monomial of n terms.
fn add_kth(s: &[u8], im: Image, k: usize, mono: &mut [u64], n: usize) -> usize
    requires { Loaded s.now im × (k < im.children) × Roomy n 4294967295 mono.old }
    ensures { Holds (insert_add (the_child (tables_of s.now) k).0 (the_child (tables_of s.now) k).1 (held n mono.old)) mono.old mono.new result
        × ((the_child (tables_of s.now) k).1 < 4294967296) }
{
    let c = long_size(members::child_class(s, im, k));
    let times = members::child_times(s, im, k);
    add_class(mono, n, c, times)
}

// "Classes rising, counts of one class added": after each child the list is the monomial of the children read so far (`Upto`).
fn of_member(s: &[u8], im: Image, m: usize, mono: &mut [u64]) -> usize
    requires { Loaded s.now im × Valid (tables_of s.now) × (m < im.members) × (length mono.old ≡ NUMBERS) }
    ensures { Made (monomial (children_of (tables_of s.now) (the_member (tables_of s.now) m))) mono.old mono.new result }
{
    let span = members::children_of(s, im, m);
    let mut n = 0;
    for k in span.from..span.to {
        n = add_kth(s, im, k, mono, n);
    }
    n
}

// "the monomial of itself once"
fn itself(mono: &mut [u64], c: usize) -> usize
    requires { length mono.old ≡ NUMBERS }
    ensures { Made (itself c) mono.old mono.new result }
{
    add_class(mono, 0, long_size(c), 1)
}

// The monomial at place x of class c: of its member x, or of the class itself once where x is past its members.
pub fn of_place(s: &[u8], im: Image, c: usize, x: usize, mono: &mut [u64]) -> usize
    requires { Loaded s.now im × Valid (tables_of s.now) × (c < im.classes) × (length mono.old ≡ NUMBERS) }
    ensures { Made (monomial_at (tables_of s.now) c x) mono.old mono.new result }
{
    let span = classes::members_of(s, im, c);
    if x < span.to {
        return of_member(s, im, x, mono);
    }
    itself(mono, c)
}
