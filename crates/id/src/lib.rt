// The ten node kinds by the Rust's numbers (id.rs), and the width of a count (multiplicity.rs).
// 0 Plain0, 1 Plain1, 2 Plain2, 3 Plain3, 4 PlainN, 5 SPair, 6 Seq, 7 MSet, 8 Set, 9 Lit
#![tactic(auto)]

ghost use Rattle.std.specs.Prelude.{◌≡◌, ◌<◌, get_or};
ghost use Rattle.spec.specs.Image.{arities, arity_right, is_ac, is_commutative};
ghost use Rattle.spec.specs.Image as Image;

use numbers::size_u8;

pub mod multiplicity;

pub const SPAIR: usize = 5;

pub const MSET: usize = 7;

pub const SET: usize = 8;

pub const LIT: usize = 9;

// marks a kind that may have any number of children
pub const FREE: u8 = 255;

const ARITY: [u8; 10] = [0, 1, 2, 3, FREE, 2, FREE, FREE, FREE, 0];

// How many children a kind has, by its number; FREE for any number of them.
pub fn arity(k: usize) -> u8
    ensures { result ≡ get_or arities k Image.FREE }
{
    if k < 10 {
        return ARITY[k];
    }
    FREE
}

// Whether a member of kind k may have n children.
pub fn arity_right(k: usize, n: usize) -> bool
    ensures { result ≡ arity_right k n }
{
    let a = arity(k);
    if a == FREE {
        return true;
    }
    n == size_u8(a)
}

// The kinds that act by transport and may have an identity.
pub fn is_ac(k: usize) -> bool
    ensures { result ≡ is_ac k }
{
    if k == MSET {
        return true;
    }
    k == SET
}

// The kinds whose children have no order: the flag of an operation.
pub fn is_commutative(k: usize) -> bool
    ensures { result ≡ is_commutative k }
{
    if k == SPAIR {
        return true;
    }
    is_ac(k)
}
