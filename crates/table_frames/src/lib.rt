// The frame of the inputs of programs `card` and `read_card`: a 4-byte length, a sign table of so many bytes, and what follows.
#![tactic(auto)]

ghost use Rattle.std.specs.Prelude.{◌≡◌, true, ◌+◌, ◌-◌, ◌≤◌, length, take, drop};
ghost use Rattle.spec.specs.Bytes as b;
ghost use Rattle.formula.specs.Programs.{tabled, unended};

use image::be4;
use numbers::{long_size, size_u64};

// "input above 65,536 bytes is `refused 2`", and so is a table that is not there in full
pub fn is_tabled(input: &[u8]) -> bool
    ensures { result ≡ tabled input.now }
{
    if input.len() > 65536 {
        return false;
    }
    if input.len() < 4 {
        return false;
    }
    be4(input, 0) + 4 <= long_size(input.len())
}

// where the table ends
pub fn table_end(input: &[u8]) -> usize
    requires { tabled input.now ≡ true }
    ensures { (result ≡ b.be4 input.now 0 + 4) × (result ≤ length input.now) × (length input.now ≤ 65536) }
{
    size_u64(be4(input, 0)) + 4
}

// how many bytes a text has without a line feed at its end: "one line feed at its end is dropped"
pub fn text_length(text: &[u8]) -> usize
    ensures { (result ≤ length text.now) × (take result text.now ≡ unended text.now) }
{
    let n = text.len();
    if n == 0 {
        return 0;
    }
    if text[n - 1] == 10 {
        return n - 1;
    }
    n
}
