// Numbers in decimal, and texts: how many digits, and bytes written at a place.
#![tactic(auto)]

ghost use Rattle.std.specs.Prelude.{◌≡◌, ◌++◌, ◌+◌, ◌≤◌, ◌<◌, length, set};
ghost use Rattle.spec.specs.Bytes.{decimal};
ghost use Rattle.decimals.specs.Writing.{Wrote};

// how many digits v has
pub fn digits(v: u64) -> usize
    ensures { (result ≡ length (decimal v)) × (result ≤ 20) }
{
    if v < 10 {
        return 1;
    }
    digits(v / 10) + 1
}

// ---- writing: from a place on; each answers the place after what it wrote
fn put(out: &mut [u8], at: usize, x: u8)
    requires { at < length out.old }
    ensures { out.new ≡ set out.old at x }
{
    out[at] = x;
}

pub fn text(out: &mut [u8], at: usize, b: &[u8]) -> usize
    requires { at + length b.now ≤ length out.old }
    ensures { Wrote b.now out.old at out.new result }
{
    for i in 0..b.len() {
        out[at + i] = b[i];
    }
    at + b.len()
}

fn digit(v: u64) -> u8
    requires { v < 10 }
    ensures { result ≡ 48 + v }
{
    48 + v as u8
}

pub fn decimal(out: &mut [u8], at: usize, v: u64) -> usize
    requires { at + length (decimal v) ≤ length out.old }
    ensures { Wrote (decimal v) out.old at out.new result }
{
    if v < 10 {
        put(out, at, digit(v));
        return at + 1;
    }
    let a = decimal(out, at, v / 10);
    put(out, a, digit(v % 10));
    a + 1
}

// b, then v
pub fn labelled(out: &mut [u8], at: usize, b: &[u8], v: u64) -> usize
    requires { at + length (b.now ++ decimal v) ≤ length out.old }
    ensures { Wrote (b.now ++ decimal v) out.old at out.new result }
{
    let a = text(out, at, b);
    decimal(out, a, v)
}
