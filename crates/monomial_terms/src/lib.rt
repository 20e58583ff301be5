// The terms of a monomial in a lent buffer: each term's class and its count.
#![tactic(auto)]

ghost use Rattle.std.specs.Prelude.{◌≡◌, ◌+◌, ◌*◌, ◌<◌, length, get_or};
ghost use Rattle.monomial_terms.specs.Terms.{terms};

// 64 children and the identity, and the length of a buffer that holds them.
pub const TERMS: usize = 65;

pub const NUMBERS: usize = 2 * TERMS;

// ---- a term: its class and its count
pub fn class_at(mono: &[u64], i: usize) -> u64
    requires { 2 * i + 1 < length mono.now }
    ensures { result ≡ (get_or (terms mono.now) i (0, 0)).0 }
{
    mono[2 * i]
}

pub fn count_at(mono: &[u64], i: usize) -> u64
    requires { 2 * i + 1 < length mono.now }
    ensures { result ≡ (get_or (terms mono.now) i (0, 0)).1 }
{
    mono[2 * i + 1]
}
