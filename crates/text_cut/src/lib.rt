// What stands at a place of a text: a word, or a number in decimal; and the place behind it.
#![tactic(auto)]

ghost use Rattle.std.specs.Prelude.{◌≡◌, ◌+◌, ◌^◌, ◌≤◌, ◌<◌, min, length, drop};
ghost use Rattle.spec.specs.Bytes.{decimal};
ghost use Rattle.formula.specs.Lexer.{starts_with, lead};
ghost use Rattle.text_cut.specs.Cutting.{CutsWord, CutsNumber};

// the text at a place starts with a word
pub fn starts_with(text: &[u8], at: usize, w: &[u8]) -> bool
    requires { at ≤ length text.now }
    ensures { result ≡ starts_with w.now (drop at text.now) }
{
    for i in 0..w.len() {
        if at + i == text.len() {
            return false;
        }
        if text[at + i] != w[i] {
            return false;
        }
    }
    true
}

// the place behind a word at a place
pub fn cut_word(text: &[u8], at: usize, w: &[u8]) -> Option<usize>
    requires { at ≤ length text.now }
    ensures { CutsWord w.now text.now at result }
{
    if starts_with(text, at, w) {
        return Some(at + w.len());
    }
    None
}

// the place behind the number v at a place, as the listing prints it
pub fn cut_decimal(text: &[u8], at: usize, v: usize) -> Option<usize>
    requires { at ≤ length text.now }
    ensures { CutsWord (decimal v) text.now at result }
{
    let mut digits = [0u8; 20];
    let n = decimals::decimal(&mut digits, 0, numbers::long_size(v));
    cut_word(text, at, &digits[0..n])
}

// the number that digits at a place make, one more than `most` where it passes that
fn lead(text: &[u8], at: usize, most: usize) -> usize
    requires { (at ≤ length text.now) × (most < 2 ^ 48) }
    ensures { result ≡ min (lead 0 (drop at text.now)) (most + 1) }
{
    let mut v = 0;
    for i in at..text.len() {
        let c = numbers::size_u8(text[i]);
        if c < 48 {
            return v;
        }
        if 57 < c {
            return v;
        }
        v = v * 10 + (c - 48);
        if v > most {
            return most + 1;
        }
    }
    v
}

// a number at a place, at most `most`, and the place behind it
pub fn cut_number(text: &[u8], at: usize, most: usize) -> Option<(usize, usize)>
    requires { (at ≤ length text.now) × (most < 2 ^ 48) }
    ensures { CutsNumber most text.now at result }
{
    let v = lead(text, at, most);
    if most < v {
        return None;
    }
    let e = cut_decimal(text, at, v)?;
    Some((v, e))
}
