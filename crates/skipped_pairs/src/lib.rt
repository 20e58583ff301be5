// The monomial pairs of two classes that are passed over (02, Paper 7), each counted once, by the facts of their monomials in two lent buffers.
#![tactic(auto)]

ghost use Rattle.std.specs.Prelude.{◌≡◌, not, ◌+◌, ◌*◌, ◌≤◌, ◌<◌, leb, eqb, length};
ghost use Rattle.spec.specs.Bytes.{pick, both, either, sum_to};
ghost use Rattle.spec.specs.Image.{NO-IDENTITY};
ghost use Rattle.skips.specs.Facts.{common, over, kin_with, kin_within, again, counts, skipped_by};
ghost use Rattle.skipped_pairs.specs.Held.{PLACES, place_in, facts_in};

use image::Image;

// How many numbers a place has, and how many places a class has at most: 1,024 members and the class itself.
pub const FACTS: usize = 4;

pub const PLACES: usize = 1025;

// ---- the numbers of a place
pub fn place_at(f: &[u64], i: usize) -> u64
    requires { 4 * i + 3 < length f.now }
    ensures { result ≡ place_in f.now i }
{
    f[4 * i]
}

fn total_at(f: &[u64], i: usize) -> u64
    requires { 4 * i + 3 < length f.now }
    ensures { result ≡ (facts_in f.now).total i }
{
    f[4 * i + 1]
}

fn most_at(f: &[u64], i: usize) -> u64
    requires { 4 * i + 3 < length f.now }
    ensures { result ≡ (facts_in f.now).most i }
{
    f[4 * i + 2]
}

fn kin_at(f: &[u64], i: usize) -> u64
    requires { 4 * i + 3 < length f.now }
    ensures { result ≡ (facts_in f.now).kin i }
{
    f[4 * i + 3]
}

// ---- kin among the first n
// Monomial a is of kin k and has the total x; or at most x.
fn has_total(f: &[u64], a: usize, k: u64, x: u64) -> bool
    requires { 4 * a + 3 < length f.now }
    ensures { result ≡ both (eqb ((facts_in f.now).kin a) k) (eqb ((facts_in f.now).total a) x) }
{
    kin_at(f, a) == k && total_at(f, a) == x
}

fn is_within(f: &[u64], a: usize, k: u64, x: u64) -> bool
    requires { 4 * a + 3 < length f.now }
    ensures { result ≡ both (eqb ((facts_in f.now).kin a) k) (leb ((facts_in f.now).total a) x) }
{
    kin_at(f, a) == k && total_at(f, a) <= x
}

fn kin_with(f: &[u64], n: usize, i: usize, x: u64) -> bool
    requires { (4 * n ≤ length f.now) × (4 * i + 3 < length f.now) }
    ensures { result ≡ kin_with (facts_in f.now) n i x }
{
    let k = kin_at(f, i);
    for a in 0..n {
        if has_total(f, a, k, x) {
            return true;
        }
    }
    false
}

fn kin_within(f: &[u64], n: usize, i: usize, x: u64) -> bool
    requires { (4 * n ≤ length f.now) × (4 * i + 3 < length f.now) }
    ensures { result ≡ kin_within (facts_in f.now) n i x }
{
    let k = kin_at(f, i);
    for a in 0..n {
        if is_within(f, a, k, x) {
            return true;
        }
    }
    false
}

// ---- the pair of left monomial i and right monomial j
// Its total after padding.
fn common(f: &[u64], g: &[u64], i: usize, j: usize) -> u64
    requires { (4 * i + 3 < length f.now) × (4 * j + 3 < length g.now) }
    ensures { result ≡ common (facts_in f.now) (facts_in g.now) i j }
{
    total_at(f, i).max(total_at(g, j))
}

// Two totals make a pair: "without one there is no pair".
fn is_pair(id: usize, a: u64, b: u64) -> bool
    ensures { result ≡ either (eqb a b) (not (eqb id NO-IDENTITY)) }
{
    a == b || id != Image::NO_IDENTITY
}

// It is passed over.
fn is_over(id: usize, f: &[u64], g: &[u64], i: usize, j: usize) -> bool
    requires { (4 * i + 3 < length f.now) × (4 * j + 3 < length g.now) }
    ensures { result ≡ over id (facts_in f.now) (facts_in g.now) i j }
{
    if !is_pair(id, total_at(f, i), total_at(g, j)) {
        return false;
    }
    let x = common(f, g, i, j);
    most_at(f, i) < x || most_at(g, j) < x
}

// An earlier left monomial gives the same pair beside one of the n right ones. Most have no earlier kin, and are looked at once.
fn left_again(f: &[u64], g: &[u64], n: usize, i: usize, j: usize, x: u64) -> bool
    requires { (4 * i + 3 < length f.now) × (4 * j + 3 < length g.now) × (4 * n ≤ length g.now) }
    ensures { result ≡ either (kin_with (facts_in f.now) i i x) (both (kin_within (facts_in f.now) i i x) (kin_with (facts_in g.now) n j x)) }
{
    if !kin_within(f, i, i, x) {
        return false;
    }
    if kin_with(f, i, i, x) {
        return true;
    }
    kin_with(g, n, j, x)
}

// An earlier right monomial gives the same pair beside the same left one.
fn right_again(f: &[u64], g: &[u64], i: usize, j: usize, x: u64) -> bool
    requires { (4 * i + 3 < length f.now) × (4 * j + 3 < length g.now) }
    ensures { result ≡ pick (eqb ((facts_in f.now).total i) x) (kin_within (facts_in g.now) j j x) (kin_with (facts_in g.now) j j x) }
{
    if total_at(f, i) == x {
        kin_within(g, j, j, x)
    } else {
        kin_with(g, j, j, x)
    }
}

// An earlier pair is the same after padding.
fn again(f: &[u64], g: &[u64], n: usize, i: usize, j: usize) -> bool
    requires { (4 * i + 3 < length f.now) × (4 * j + 3 < length g.now) × (4 * n ≤ length g.now) }
    ensures { result ≡ again (facts_in f.now) (facts_in g.now) n i j }
{
    let x = common(f, g, i, j);
    left_again(f, g, n, i, j, x) || right_again(f, g, i, j, x)
}

// It is passed over, and no earlier one is the same.
fn is_counted(id: usize, f: &[u64], g: &[u64], n: usize, i: usize, j: usize) -> bool
    requires { (4 * i + 3 < length f.now) × (4 * j + 3 < length g.now) × (4 * n ≤ length g.now) }
    ensures { result ≡ counts id (facts_in f.now) (facts_in g.now) n i j }
{
    is_over(id, f, g, i, j) && !again(f, g, n, i, j)
}

// ---- all pairs
fn one(b: bool) -> u64
    ensures { (result ≡ pick b 1 0) × (result ≤ 1) }
{
    u64::from(b)
}

// Left monomial i beside n right ones.
fn count_row(id: usize, f: &[u64], i: usize, g: &[u64], n: usize) -> u64
    requires { (4 * i + 3 < length f.now) × (4 * n ≤ length g.now) × (n ≤ PLACES) }
    ensures { (result ≡ sum_to n (λ j. pick (counts id (facts_in f.now) (facts_in g.now) n i j) 1 0)) × (result ≤ n) }
{
    let mut sum: u64 = 0;
    for j in 0..n {
        sum += one(is_counted(id, f, g, n, i, j));
    }
    sum
}

// m left monomials beside n right ones.
pub fn count_pairs(id: usize, f: &[u64], m: usize, g: &[u64], n: usize) -> u64
    requires { (4 * m ≤ length f.now) × (4 * n ≤ length g.now) × (m ≤ PLACES) × (n ≤ PLACES) }
    ensures { (result ≡ skipped_by id (facts_in f.now) (facts_in g.now) m n) × (result ≤ PLACES * PLACES) }
{
    let mut sum: u64 = 0;
    for i in 0..m {
        sum += count_row(id, f, i, g, n);
    }
    sum
}
