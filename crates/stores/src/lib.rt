// A number read from a slice, with the range that its width gives, or stored in it.
#![tactic(auto)]

ghost use Rattle.std.specs.Prelude.{◌≡◌, ◌<◌, length, get_or, set};

use numbers::{size_u16, size_u32};

// ---- reads
pub fn at_u16(s: &[u16], at: usize) -> usize
    requires { at < length s.now }
    ensures { (result ≡ get_or s.now at 0) × (result < 65536) }
{
    size_u16(s[at])
}

pub fn at_u32(s: &[u32], at: usize) -> usize
    requires { at < length s.now }
    ensures { (result ≡ get_or s.now at 0) × (result < 4294967296) }
{
    size_u32(s[at])
}

// ---- stores
pub fn put_u16(s: &mut [u16], at: usize, v: usize)
    requires { (at < length s.old) × (v < 65536) }
    ensures { s.new ≡ set s.old at v }
{
    s[at] = v as u16;
}

pub fn put_u32(s: &mut [u32], at: usize, x: u32)
    requires { at < length s.old }
    ensures { s.new ≡ set s.old at x }
{
    s[at] = x;
}

pub fn put_u64(s: &mut [u64], at: usize, v: u64)
    requires { at < length s.old }
    ensures { s.new ≡ set s.old at v }
{
    s[at] = v;
}
