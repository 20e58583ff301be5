// The mark at a place of a text.
#![tactic(auto)]

ghost use Rattle.std.specs.Prelude.{◌≡◌, true, false, List, ℕ, ◌≤◌, ◌<◌, length, get_or, drop};
ghost use Rattle.formula.specs.Card.{operations, bindings};
ghost use Rattle.formula.specs.Lexer.{digit, sign_byte};
ghost use Rattle.card_cut.specs.Cutting.{Cuts, fits, sign_at};

use signs::{operations, sign_length};
use text_cut::{cut_number, starts_with};

// A mark of a formula text; a literal's value, then its operation.
#[derive(Clone, Copy)]
pub enum Mark {
    Literal(u32, u8),
    Between(u8),
    List(u8),
    Next,
    Close,
    Opens,
    Shuts,
    Begin,
    Or,
    End,
}

// a number of one byte
fn byte(x: usize) -> u8
    requires { x < 256 }
    ensures { result ≡ x }
{
    x as u8
}

// a digit
fn is_digit(c: u8) -> bool
    ensures { result ≡ digit c }
{
    if c < 48 {
        return false;
    }
    c <= 57
}

// a letter, or one of + - * / < >
fn is_sign_byte(c: u8) -> bool
    ensures { result ≡ sign_byte c }
{
    if sign_judge::is_letter(c) {
        return true;
    }
    sign_judge::is_symbol(c)
}

// `value#operation`
fn cut_literal(text: &[u8], at: usize) -> Option<(Mark, usize)>
    requires { (at < length text.now) × (digit (get_or text.now at 0) ≡ true) }
    ensures { (t : List ℕ) → Cuts t text.now at result }
{
    let (v, e) = cut_number(text, at, 4294967295)?;
    if e == text.len() {
        return None;
    }
    if text[e] != 35 {
        return None;
    }
    let (o, f) = cut_number(text, e + 1, 63)?;
    Some((Mark::Literal(numbers::short_size(v), byte(o)), f))
}

// an operation is proper, and its sign stands at a place with a byte behind it
fn sign_fits(table: &[u8], binds: &[u8; 64], o: usize, text: &[u8], at: usize, last: u8) -> bool
    requires { (binds.now ≡ bindings table.now) × (o < operations table.now) × (at ≤ length text.now) }
    ensures { result ≡ fits table.now last (drop at text.now) o }
{
    if binds[o] == 0 {
        return false;
    }
    let from = 9 + 9 * o;
    let n = sign_length(table, o);
    if !starts_with(text, at, &table[from..from + n]) {
        return false;
    }
    if at + n == text.len() {
        return false;
    }
    text[at + n] == last
}

// the first operation whose sign fits
fn find_sign(table: &[u8], binds: &[u8; 64], text: &[u8], at: usize, last: u8) -> usize
    requires { (binds.now ≡ bindings table.now) × (at ≤ length text.now) }
    ensures { result ≡ sign_at table.now last (drop at text.now) }
{
    let n = operations(table);
    for o in 0..n {
        if sign_fits(table, binds, o, text, at, last) {
            return o;
        }
    }
    n
}

// an operation's sign and `[`
fn cut_list(table: &[u8], binds: &[u8; 64], text: &[u8], at: usize) -> Option<(Mark, usize)>
    requires { (binds.now ≡ bindings table.now) × (at < length text.now) × (digit (get_or text.now at 0) ≡ false) × (sign_byte (get_or text.now at 0) ≡ true) }
    ensures { Cuts table.now text.now at result }
{
    let o = find_sign(table, binds, text, at, 91);
    if o < operations(table) {
        return Some((Mark::List(byte(o)), at + sign_length(table, o) + 1));
    }
    None
}

// ` | `, or an operation's sign between spaces
fn cut_spaced(table: &[u8], binds: &[u8; 64], text: &[u8], at: usize) -> Option<(Mark, usize)>
    requires { (binds.now ≡ bindings table.now) × (at < length text.now) × (get_or text.now at 0 ≡ 32) }
    ensures { Cuts table.now text.now at result }
{
    if starts_with(text, at, b" | ") {
        return Some((Mark::Or, at + 3));
    }
    let o = find_sign(table, binds, text, at + 1, 32);
    if o < operations(table) {
        return Some((Mark::Between(byte(o)), at + sign_length(table, o) + 2));
    }
    None
}

// `; `
fn cut_next(text: &[u8], at: usize) -> Option<(Mark, usize)>
    requires { (at < length text.now) × (get_or text.now at 0 ≡ 59) }
    ensures { (t : List ℕ) → Cuts t text.now at result }
{
    if starts_with(text, at, b"; ") {
        return Some((Mark::Next, at + 2));
    }
    None
}

// one of ( ) ] { } and `; `
fn cut_plain(text: &[u8], at: usize) -> Option<(Mark, usize)>
    requires { (at < length text.now) × (digit (get_or text.now at 0) ≡ false) × (sign_byte (get_or text.now at 0) ≡ false) × (get_or text.now at 0 ≡ 32 → ⊥) }
    ensures { (t : List ℕ) → Cuts t text.now at result }
{
    match text[at] {
        b'(' => Some((Mark::Opens, at + 1)),
        b')' => Some((Mark::Shuts, at + 1)),
        b']' => Some((Mark::Close, at + 1)),
        b'{' => Some((Mark::Begin, at + 1)),
        b';' => cut_next(text, at),
        b'}' => Some((Mark::End, at + 1)),
        _ => None,
    }
}

// The mark that the text begins with at a place, by its first byte, and the place behind it.
pub fn cut_mark(table: &[u8], binds: &[u8; 64], text: &[u8], at: usize) -> Option<(Mark, usize)>
    requires { (at < length text.now) × (binds.now ≡ bindings table.now) }
    ensures { Cuts table.now text.now at result }
{
    let c = text[at];
    if is_digit(c) {
        return cut_literal(text, at);
    }
    if is_sign_byte(c) {
        return cut_list(table, binds, text, at);
    }
    if c == 32 {
        return cut_spaced(table, binds, text, at);
    }
    cut_plain(text, at)
}
