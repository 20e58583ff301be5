// A pair given its size, mass and term: what a round starts from, or what the round at hand gives it.
#![tactic(auto)]

ghost use Rattle.std.specs.Prelude.{◌≡◌, ◌+◌, ◌<◌, length};
ghost use Rattle.arrays.specs.Arrays.{given};

use arrays::{MASS, TERM};
use stores::put_u32;

// One pair's size, mass and term, from place `at` on.
pub fn give(pairs: &mut [u32], at: usize, size: u32, mass: u32, term: u32)
    requires { at + 2 < length pairs.old }
    ensures { pairs.new ≡ given pairs.old at size mass term }
{
    put_u32(pairs, at, size);
    put_u32(pairs, at + MASS, mass);
    put_u32(pairs, at + TERM, term);
}
