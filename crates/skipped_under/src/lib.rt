// The monomial pairs of two classes that are passed over under an operation (02, Paper 7): told by three numbers of each monomial, its total, the greatest total to which it can be padded, and its kin.
#![tactic(auto)]

ghost use Rattle.std.specs.Prelude.{◌≡◌, ◌+◌, ◌*◌, ◌≤◌, ◌<◌, eqb, length, get_or, set};
ghost use Rattle.spec.specs.Bytes.{pick, same_two, same_twos};
ghost use Rattle.spec.specs.Image.{tables_of};
ghost use Rattle.spec.specs.Monomial.{total, monomials_of, skipped_under};
ghost use Rattle.laws.specs.Valid.{Valid};
ghost use Rattle.skips.specs.Facts.{FULL, filled, count_at, most, FactsOf};
ghost use Rattle.skips.specs.Members.{Low};
ghost use Rattle.image.specs.Loaded.{Loaded};
ghost use Rattle.monomial_terms.specs.Terms.{TERMS, NUMBERS, terms, held};
ghost use Rattle.monomial.specs.Places.{monomial_at};
ghost use Rattle.skipped_pairs.specs.Held.{PLACES, facts_in};
ghost use Rattle.skipped_under.specs.Told.{places_of, put_facts, first_kin, Told, KinsTold};

use ac_repr::next_place;
use image::Image;
use monomial::of_place;
use monomial_terms::{class_at, count_at};
use narrowing::narrow;
use numbers::{long_size, size_u64};
use padding::{level, total};
use skipped_pairs::{FACTS, PLACES, count_pairs, place_at};

// No monomial of an image has a greater total.
const FULL: u64 = 64 * id::multiplicity::MAX;

// ---- two monomials
fn same_term(left: &[u64], right: &[u64], i: usize) -> bool
    requires { (2 * i + 1 < length left.now) × (2 * i + 1 < length right.now) }
    ensures { result ≡ same_two (get_or (terms left.now) i (0, 0)) (get_or (terms right.now) i (0, 0)) }
{
    class_at(left, i) == class_at(right, i) && count_at(left, i) == count_at(right, i)
}

fn same(left: &[u64], n: usize, right: &[u64], m: usize) -> bool
    requires { (2 * n ≤ length left.now) × (2 * m ≤ length right.now) }
    ensures { result ≡ same_twos (held n left.now) (held m right.now) }
{
    if n != m {
        return false;
    }
    for i in 0..n {
        if !same_term(left, right, i) {
            return false;
        }
    }
    true
}

// ---- a monomial
// The count of class c, where term i has it.
fn term_count(mono: &[u64], i: usize, c: u64) -> u64
    requires { 2 * i + 1 < length mono.now }
    ensures { result ≡ pick (eqb (get_or (terms mono.now) i (0, 0)).0 c) (get_or (terms mono.now) i (0, 0)).1 0 }
{
    if class_at(mono, i) == c {
        count_at(mono, i)
    } else {
        0
    }
}

// The count of class c.
fn count_of(mono: &[u64], n: usize, c: u64) -> u64
    requires { 2 * n ≤ length mono.now }
    ensures { result ≡ count_at c (held n mono.now) }
{
    for i in 0..n {
        if class_at(mono, i) >= c {
            return term_count(mono, i, c);
        }
    }
    0
}

// The greatest total to which it can be padded without a count above 4,294,967,295.
fn most_of(mono: &[u64], n: usize, id: usize, all: u64) -> u64
    requires { (2 * n ≤ length mono.now) × (all ≡ total (held n mono.now)) × (all ≤ FULL) }
    ensures { result ≡ most id (held n mono.now) }
{
    match narrow(mono, n) {
        None => all + (id::multiplicity::MAX - count_of(mono, n, long_size(id))),
        Some(_) => 0,
    }
}

// ---- places with totals and most
fn put_facts(f: &mut [u64], i: usize, x: u64, all: u64, most: u64)
    requires { 4 * i + 3 < length f.old }
    ensures { f.new ≡ set (set (set f.old (4 * i) x) (4 * i + 1) all) (4 * i + 2) most }
{
    let at = 4 * i;
    f[at] = x;
    f[at + 1] = all;
    f[at + 2] = most;
}

// Place x of class c as the i-th.
fn gather_place(s: &[u8], im: Image, c: usize, id: usize, f: &mut [u64], i: usize, x: usize)
    requires { Loaded s.now im × Valid (tables_of s.now) × (c < im.classes) × (4 * i + 3 < length f.old) }
    ensures { (f.new ≡ put_facts id (monomial_at (tables_of s.now) c x) x i f.old) × (total (monomial_at (tables_of s.now) c x) ≤ FULL) }
{
    let mut mono = [0u64; monomial_terms::NUMBERS];
    let n = of_place(s, im, c, x, &mut mono);
    let all = total(&mono, n);
    let most = most_of(&mono, n, id, all);
    put_facts(f, i, long_size(x), all, most);
}

// The places of class c under operation o, in order: how many.
fn gather(s: &[u8], im: Image, c: usize, o: usize, id: usize, f: &mut [u64]) -> usize
    requires { Loaded s.now im × Valid (tables_of s.now) × (c < im.classes) × (o < im.operations) × (4 * PLACES ≤ length f.old) }
    ensures { (result ≡ length (places_of (tables_of s.now) c o)) × (result ≤ PLACES) × Told id (monomial_at (tables_of s.now) c) (places_of (tables_of s.now) c o) result 0 f.new }
{
    let span = classes::members_of(s, im, c);
    let mut n = 0;
    let mut x = next_place(s, im, span.to, o, span.from);
    // no range: x goes on to the next place of the operation
    while x <= span.to {
        gather_place(s, im, c, id, f, n, x);
        n += 1;
        x = next_place(s, im, span.to, o, x + 1);
    }
    n
}

// ---- kin
// The monomial at place x, filled up with identities.
fn fill(s: &[u8], im: Image, c: usize, x: usize, id: usize, mono: &mut [u64]) -> usize
    requires { Loaded s.now im × Valid (tables_of s.now) × (c < im.classes) × (length mono.old ≡ NUMBERS) }
    ensures { (held result mono.new ≡ filled id (monomial_at (tables_of s.now) c x)) × (result ≤ TERMS) }
{
    let n = of_place(s, im, c, x, mono);
    let all = total(mono, n);
    level(mono, n, id, all, FULL)
}

// The one at place x is the same as the monomial of n terms, which is filled.
fn is_kin(s: &[u8], im: Image, c: usize, x: usize, id: usize, left: &[u64], n: usize) -> bool
    requires { Loaded s.now im × Valid (tables_of s.now) × (c < im.classes) × (2 * n ≤ length left.now) }
    ensures { result ≡ same_twos (held n left.now) (filled id (monomial_at (tables_of s.now) c x)) }
{
    let mut right = [0u64; monomial_terms::NUMBERS];
    let m = fill(s, im, c, x, id, &mut right);
    same(left, n, &right, m)
}

// The first place that is kin to the i-th.
fn kin_of(s: &[u8], im: Image, c: usize, id: usize, f: &[u64], i: usize) -> usize
    requires { Loaded s.now im × Valid (tables_of s.now) × (c < im.classes) × (4 * i + 3 < length f.now) }
    ensures { result ≡ first_kin id (monomial_at (tables_of s.now) c) f.now i }
{
    let mut left = [0u64; monomial_terms::NUMBERS];
    let n = fill(s, im, c, size_u64(place_at(f, i)), id, &mut left);
    for k in 0..i {
        if is_kin(s, im, c, size_u64(place_at(f, k)), id, &left, n) {
            return k;
        }
    }
    i
}

fn put_kin(f: &mut [u64], i: usize, k: u64)
    requires { 4 * i + 3 < length f.old }
    ensures { f.new ≡ set f.old (4 * i + 3) k }
{
    f[4 * i + 3] = k;
}

// The kin of the n places that the buffer holds.
fn set_kins(s: &[u8], im: Image, c: usize, id: usize, f: &mut [u64], n: usize)
    requires { Loaded s.now im × Valid (tables_of s.now) × (c < im.classes) × (4 * n ≤ length f.old) }
    ensures { KinsTold id (monomial_at (tables_of s.now) c) n n f.old f.new }
{
    for i in 0..n {
        let k = kin_of(s, im, c, id, f, i);
        put_kin(f, i, long_size(k));
    }
}

// The facts of class c under operation o, whose identity is `id`: of how many monomials.
fn facts_of(s: &[u8], im: Image, c: usize, o: usize, id: usize, f: &mut [u64]) -> usize
    requires { Loaded s.now im × Valid (tables_of s.now) × (c < im.classes) × (o < im.operations) × (4 * PLACES ≤ length f.old) }
    ensures { (result ≡ length (monomials_of (tables_of s.now) c o)) × (result ≤ PLACES) × FactsOf id (monomials_of (tables_of s.now) c o) (facts_in f.new) × Low (monomials_of (tables_of s.now) c o) }
{
    let n = gather(s, im, c, o, id, f);
    set_kins(s, im, c, id, f, n);
    n
}

// ---- two classes
// "the number of monomial pairs passed over" for "the same left class, right class and operation"
pub fn skipped_under(s: &[u8], im: Image, l: usize, r: usize, o: usize) -> u64
    requires { Loaded s.now im × Valid (tables_of s.now) × (l < im.classes) × (r < im.classes) × (o < im.operations) }
    ensures { (result ≡ skipped_under (tables_of s.now) l r o) × (result ≤ PLACES * PLACES) }
{
    let mut left = [0u64; FACTS * PLACES];
    let mut right = [0u64; FACTS * PLACES];
    let id = operations::identity(s, im, o);
    let m = facts_of(s, im, l, o, id, &mut left);
    let n = facts_of(s, im, r, o, id, &mut right);
    count_pairs(id, &left, m, &right, n)
}
