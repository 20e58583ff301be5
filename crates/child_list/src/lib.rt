// A member's children as they arrive (02, Paper 6): each is added to its class, at the class's place in the rising order, in a lent buffer.
#![tactic(auto)]

ghost use Rattle.std.specs.Prelude.{◌≡◌, ◌∷◌, ◌+◌, ◌*◌, ◌<◌, length, set, drop};
ghost use Rattle.std.proofs.Math.Seq.{paste};
ghost use Rattle.spec.specs.Monomial.{insert_add};
ghost use Rattle.monomial_terms.specs.Terms.{terms, rest, held, Holds, Roomy};
ghost use Rattle.child_list.specs.Adding.{Adds, Fits};

use class_place::{lacks_place, overflows, place, stands_at};
use monomial_terms::{class_at, count_at};

fn put_term(mono: &mut [u64], i: usize, c: u64, k: u64)
    requires { 2 * i + 1 < length mono.old }
    ensures { (terms mono.new ≡ set (terms mono.old) i (c, k)) × (rest mono.new ≡ rest mono.old) }
{
    let at = 2 * i;
    mono[at] = c;
    mono[at + 1] = k;
}

// The term (c, k) at place p, and the n terms that stood there one place up.
fn insert_term(mono: &mut [u64], p: usize, n: usize, c: u64, k: u64)
    requires { 2 * (p + n) + 1 < length mono.old }
    ensures { (terms mono.new ≡ paste (terms mono.old) p ((c, k) ∷ drop p (terms mono.old)) (n + 1)) × (rest mono.new ≡ rest mono.old) }
{
    let mut x = c;
    let mut y = k;
    for j in 0..=n {
        let t = class_at(mono, p + j);
        let u = count_at(mono, p + j);
        put_term(mono, p + j, x, y);
        x = t;
        y = u;
    }
}

// k more of class c, whose place is p, in the list of n terms: how many terms it has then.
fn add_at(mono: &mut [u64], n: usize, p: usize, c: u64, k: u64) -> usize
    requires { Fits n p c k mono.old }
    ensures { Holds (insert_add c k (held n mono.old)) mono.old mono.new result × (rest mono.new ≡ rest mono.old) }
{
    if stands_at(mono, n, p, c) {
        let v = count_at(mono, p) + k;
        put_term(mono, p, c, v);
        return n;
    }
    insert_term(mono, p, n - p, c, k);
    n + 1
}

// k more of class c in the monomial of n terms, where there is room: how many terms it has then.
pub fn add_class(mono: &mut [u64], n: usize, c: u64, k: u64) -> usize
    requires { Roomy n k mono.old }
    ensures { Holds (insert_add c k (held n mono.old)) mono.old mono.new result }
{
    let p = place(mono, n, c);
    add_at(mono, n, p, c, k)
}

// ---- for outside callers
#[derive(Clone, Copy, PartialEq, Eq, Debug)]
pub enum Unadded {
    // the child's class is new and every place is taken, or the buffer has no n terms
    Full,
    // the count of the child's class would pass 64 bits
    Overflow,
}

// A child of class c and count k in the list of n terms: how many terms the list holds then. After each child the list held is the monomial of the children read so far; a child that is refused leaves it as it was.
pub fn add_child(mono: &mut [u64], n: usize, c: u64, k: u64) -> Result<usize, Unadded>
    ensures { Adds n c k mono.old mono.new result }
{
    if n > mono.len() / 2 {
        return Err(Unadded::Full);
    }
    let p = place(mono, n, c);
    if lacks_place(mono, n, p, c) {
        return Err(Unadded::Full);
    }
    if overflows(mono, n, p, c, k) {
        return Err(Unadded::Overflow);
    }
    Ok(add_at(mono, n, p, c, k))
}
