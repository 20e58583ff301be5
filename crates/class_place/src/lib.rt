// Where a class stands in a list of terms, and whether a child of it has room there (02, Paper 6): its place in the rising order, its term, its count.
#![tactic(auto)]

ghost use Rattle.std.specs.Prelude.{◌≡◌, false, ◌+◌, ◌*◌, ◌≤◌, ◌^◌, leb, length};
ghost use Rattle.spec.specs.Bytes.{pick};
ghost use Rattle.monomial_terms.specs.Terms.{held, position};
ghost use Rattle.class_place.specs.Standing.{places, stands, count_there};

use monomial_terms::{class_at, count_at};

// The first of n places whose class is not below c.
pub fn place(mono: &[u64], n: usize, c: u64) -> usize
    requires { 2 * n ≤ length mono.now }
    ensures { (result ≡ position c (held n mono.now)) × (result ≤ n) }
{
    for i in 0..n {
        if class_at(mono, i) >= c {
            return i;
        }
    }
    n
}

// Class c stands in the list, at its place p.
pub fn stands_at(mono: &[u64], n: usize, p: usize, c: u64) -> bool
    requires { (2 * n ≤ length mono.now) × (p ≡ position c (held n mono.now)) }
    ensures { result ≡ stands c (held n mono.now) }
{
    if p < n {
        return class_at(mono, p) == c;
    }
    false
}

// Class c is new, and the n terms take every place.
pub fn lacks_place(mono: &[u64], n: usize, p: usize, c: u64) -> bool
    requires { (2 * n ≤ length mono.now) × (p ≡ position c (held n mono.now)) }
    ensures { result ≡ pick (stands c (held n mono.now)) false (leb (places mono.now) n) }
{
    if stands_at(mono, n, p, c) {
        return false;
    }
    mono.len() / 2 <= n
}

// Class c stands in the list, and k more would pass 64 bits.
pub fn overflows(mono: &[u64], n: usize, p: usize, c: u64, k: u64) -> bool
    requires { (2 * n ≤ length mono.now) × (p ≡ position c (held n mono.now)) }
    ensures { result ≡ pick (stands c (held n mono.now)) (leb (2 ^ 64) (count_there c (held n mono.now) + k)) false }
{
    if stands_at(mono, n, p, c) {
        return count_at(mono, p) > 18446744073709551615 - k;
    }
    false
}
