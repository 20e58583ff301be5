// Which operations of a sign table have "a proper sign of its own and precedence".
#![tactic(auto)]

ghost use Rattle.std.specs.Prelude.{◌≡◌, ◌+◌, ◌*◌, ◌≤◌, ◌<◌, length};
ghost use Rattle.std.proofs.Math.Seq.{slice};
ghost use Rattle.spec.specs.Bytes.{all};
ghost use Rattle.formula.specs.Card.{operations, sign, letter, symbol, same_bytes, has_sign, own, binding_of, bindings};
ghost use Rattle.sign_judge.specs.Judging.{is_zero, shared};

use signs::{operations, sign_length};

// "ASCII letters"
pub fn is_letter(c: u8) -> bool
    ensures { result ≡ letter c }
{
    if c < 65 {
        return false;
    }
    if c <= 90 {
        return true;
    }
    if c < 97 {
        return false;
    }
    c <= 122
}

// "one of + - * / < >"
pub fn is_symbol(c: u8) -> bool
    ensures { result ≡ symbol c }
{
    if c == 43 {
        return true;
    }
    if c == 45 {
        return true;
    }
    if c == 42 {
        return true;
    }
    if c == 47 {
        return true;
    }
    if c == 60 {
        return true;
    }
    c == 62
}

// the bytes from one place up to another are letters
fn are_letters(table: &[u8], from: usize, to: usize) -> bool
    requires { (from ≤ to) × (to ≤ length table.now) }
    ensures { result ≡ all letter (slice from to table.now) }
{
    table[from..to].iter().all(|c| is_letter(*c))
}

// "zeros up to 8 bytes"
fn are_zero(table: &[u8], from: usize, to: usize) -> bool
    requires { (from ≤ to) × (to ≤ length table.now) }
    ensures { result ≡ all is_zero (slice from to table.now) }
{
    table[from..to].iter().all(|b| *b == 0)
}

// "1 to 8 ASCII letters, or one of + - * / < >", then zeros
fn has_sign(table: &[u8], o: usize) -> bool
    requires { o < operations table.now }
    ensures { result ≡ has_sign table.now o }
{
    let at = 9 + 9 * o;
    let n = sign_length(table, o);
    if !are_zero(table, at + n, at + 8) {
        return false;
    }
    if n == 0 {
        return false;
    }
    if are_letters(table, at, at + n) {
        return true;
    }
    if n != 1 {
        return false;
    }
    is_symbol(table[at])
}

// two operations have the same sign
fn same_sign(table: &[u8], o: usize, q: usize) -> bool
    requires { (o < operations table.now) × (q < operations table.now) }
    ensures { result ≡ same_bytes (sign table.now q) (sign table.now o) }
{
    let n = sign_length(table, o);
    if sign_length(table, q) != n {
        return false;
    }
    table[9 + 9 * q..9 + 9 * q + n] == table[9 + 9 * o..9 + 9 * o + n]
}

// q is another operation with the sign of o
fn is_shared(table: &[u8], o: usize, q: usize) -> bool
    requires { (o < operations table.now) × (q < operations table.now) }
    ensures { result ≡ shared table.now o q }
{
    if q == o {
        return false;
    }
    if !has_sign(table, q) {
        return false;
    }
    same_sign(table, o, q)
}

// "of its own"
fn is_own(table: &[u8], o: usize) -> bool
    requires { o < operations table.now }
    ensures { result ≡ own table.now o }
{
    let n = operations(table);
    for q in 0..n {
        if is_shared(table, o, q) {
            return false;
        }
    }
    true
}

// its precedence, or 0 where it has no proper sign of its own and precedence
fn binding(table: &[u8], o: usize) -> u8
    ensures { result ≡ binding_of table.now o }
{
    if o >= operations(table) {
        return 0;
    }
    let p = table[17 + 9 * o];
    if p == 0 {
        return 0;
    }
    if p > 9 {
        return 0;
    }
    if !has_sign(table, o) {
        return 0;
    }
    if !is_own(table, o) {
        return 0;
    }
    p
}

// The precedence of each operation with a proper sign of its own and precedence; 0 for the others.
pub fn judge(table: &[u8], binds: &mut [u8; 64])
    requires { length binds.old ≡ 64 }
    ensures { binds.new ≡ bindings table.now }
{
    for o in 0..64 {
        binds[o] = binding(table, o);
    }
}
