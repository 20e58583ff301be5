// Two monomials in lent buffers, padded with the identity (ac_repr.rs): both classes as themselves, totals, narrowing.
#![tactic(auto)]

ghost use Rattle.std.specs.Prelude.{◌≡◌, ◌≤◌, ◌<◌, ◌^◌, length};
ghost use Rattle.spec.specs.Bytes.{same_twos};
ghost use Rattle.spec.specs.Monomial.{total, narrow, itself, both_itself};
ghost use Rattle.monomial_terms.specs.Terms.{TERMS, NUMBERS, held, Holds};
ghost use Rattle.monomial.specs.Places.{TOTAL};
ghost use Rattle.padding.specs.Pad.{level_by, unmatched, both_narrow, padded_of, answer_of, Pads, Paddable};

use child_list::add_class;
use image::Image;
use monomial_terms::{class_at, count_at};
use narrowing::narrow;
use numbers::long_size;

pub fn total(mono: &[u64], n: usize) -> u64
    requires { (length mono.now ≡ NUMBERS) × (n ≤ TERMS) × (total (held n mono.now) < 2 ^ 64) }
    ensures { result ≡ total (held n mono.now) }
{
    let mut sum: u64 = 0;
    for i in 0..n {
        sum += count_at(mono, i);
    }
    sum
}

// No count is above 4,294,967,295.
fn is_narrow(mono: &[u64], n: usize) -> bool
    ensures { result ≡ narrow (held n mono.now) }
{
    narrow(mono, n).is_none()
}

fn both_narrow(left: &[u64], n: usize, right: &[u64], m: usize) -> bool
    ensures { result ≡ both_narrow (held n left.now) (held m right.now) }
{
    is_narrow(left, n) && is_narrow(right, m)
}

// The monomial is class c itself once.
fn is_itself(mono: &[u64], n: usize, c: usize) -> bool
    requires { (length mono.now ≡ NUMBERS) × (n ≤ TERMS) }
    ensures { result ≡ same_twos (held n mono.now) (itself c) }
{
    n == 1 && class_at(mono, 0) == long_size(c) && count_at(mono, 0) == 1
}

fn both_itself(left: &[u64], n: usize, l: usize, right: &[u64], m: usize, r: usize) -> bool
    requires { (length left.now ≡ NUMBERS) × (n ≤ TERMS) × (length right.now ≡ NUMBERS) × (m ≤ TERMS) }
    ensures { result ≡ both_itself l r (held n left.now) (held m right.now) }
{
    is_itself(left, n, l) && is_itself(right, m, r)
}

fn unmatched(id: usize, a: u64, b: u64) -> bool
    ensures { result ≡ unmatched id a b }
{
    a != b && id == Image::NO_IDENTITY
}

// The monomial of n terms, whose total is a, with the identities that it lacks where the other's total is b.
pub fn level(mono: &mut [u64], n: usize, id: usize, a: u64, b: u64) -> usize
    requires { (length mono.old ≡ NUMBERS) × (n ≤ 64) × (a ≡ total (held n mono.old)) × (b ≤ TOTAL) }
    ensures { Holds (level_by id (held n mono.old) a b) mono.old mono.new result }
{
    if a < b && id != Image::NO_IDENTITY {
        return add_class(mono, n, long_size(id), b - a);
    }
    n
}

// "Unequal totals are padded with the identity; without one there is no pair." How many rows and columns; None: no pair, or a count that is too large.
fn pad(id: usize, left: &mut [u64], n: usize, right: &mut [u64], m: usize) -> Option<(usize, usize)>
    requires { Paddable n m left.old right.old }
    ensures { Pads (padded_of id (held n left.old) (held m right.old)) id (held n left.old) (held m right.old) left.old right.old left.new right.new result }
{
    let a = total(left, n);
    let b = total(right, m);
    if unmatched(id, a, b) {
        return None;
    }
    let rows = level(left, n, id, a, b);
    let cols = level(right, m, id, b, a);
    if both_narrow(left, rows, right, cols) {
        return Some((rows, cols));
    }
    None
}

// "except both classes as themselves once": None for them too.
pub fn pad_pair(
    id: usize,
    l: usize,
    r: usize,
    left: &mut [u64],
    n: usize,
    right: &mut [u64],
    m: usize,
) -> Option<(usize, usize)>
    requires { Paddable n m left.old right.old }
    ensures { Pads (answer_of l r id (held n left.old) (held m right.old)) id (held n left.old) (held m right.old) left.old right.old left.new right.new result }
{
    if both_itself(left, n, l, right, m, r) {
        return None;
    }
    pad(id, left, n, right, m)
}
