// The text of a term written, from a place on; each function answers the place after what it wrote.
#![tactic(auto)]

ghost use Rattle.std.specs.Prelude.{◌≡◌, [], ◌++◌, ◌+◌, ◌*◌, ◌-◌, ◌/◌, ◌%◌, ◌≤◌, ◌<◌, length, take, drop};
ghost use Rattle.spec.specs.Bytes.{pick};
ghost use Rattle.formula.specs.Card.{operations, sign};
ghost use Rattle.decimals.specs.Writing.{Wrote};
ghost use Rattle.terms.specs.Buffers.{count_in, pool_of};
ghost use Rattle.terms.specs.Chains.{Holds};
ghost use Rattle.card_forms.specs.Forms.{card_text, AllSigned, literal_text, sign_text, opening_text, gap_text, closing_text, copies};

use card_forms::{Form, form_of};
use decimals::{decimal, labelled, text};

// ---- a literal, `value#operation`
fn write_literal(out: &mut [u8], at: usize, v: u32, o: u32) -> usize
    requires { at + length (literal_text v o) ≤ length out.old }
    ensures { Wrote (literal_text v o) out.old at out.new result }
{
    let a = decimal(out, at, numbers::long_u32(v));
    labelled(out, a, b"#", numbers::long_u32(o))
}

// ---- signs
fn write_sign(out: &mut [u8], at: usize, table: &[u8], o: usize) -> usize
    requires { (o < operations table.now) × (at + length (sign table.now o) ≤ length out.old) }
    ensures { Wrote (sign table.now o) out.old at out.new result }
{
    let n = signs::sign_length(table, o);
    let first = 9 + 9 * o;
    text(out, at, &table[first..first + n])
}

// a sign with a space on each side
fn write_between(out: &mut [u8], at: usize, table: &[u8], o: usize) -> usize
    requires { (o < operations table.now) × (at + length (sign_text table.now o) ≤ length out.old) }
    ensures { Wrote (sign_text table.now o) out.old at out.new result }
{
    let a = text(out, at, b" ");
    let b = write_sign(out, a, table, o);
    text(out, b, b" ")
}

// a bracket, where it stands
fn write_where(out: &mut [u8], at: usize, stands: bool, b: &[u8]) -> usize
    requires { at + length (pick stands b.now []) ≤ length out.old }
    ensures { Wrote (pick stands b.now []) out.old at out.new result }
{
    if stands {
        return text(out, at, b);
    }
    at
}

// ---- a list or a marked place, by its head
fn write_opening(out: &mut [u8], at: usize, table: &[u8], h: u32) -> usize
    requires { ((h / 64 ≡ 2 → ⊥) → h % 64 < operations table.now) × (at + length (opening_text table.now h) ≤ length out.old) }
    ensures { Wrote (opening_text table.now h) out.old at out.new result }
{
    if h / 64 == 2 {
        return text(out, at, b"{");
    }
    let a = write_sign(out, at, table, numbers::size_u32(h % 64));
    text(out, a, b"[")
}

fn write_gap(out: &mut [u8], at: usize, h: u32) -> usize
    requires { at + length (gap_text h) ≤ length out.old }
    ensures { Wrote (gap_text h) out.old at out.new result }
{
    if h / 64 == 2 {
        return text(out, at, b" | ");
    }
    text(out, at, b"; ")
}

// nothing before the first child
fn write_gap_after(out: &mut [u8], at: usize, h: u32, first: bool) -> usize
    requires { at + length (pick first [] (gap_text h)) ≤ length out.old }
    ensures { Wrote (pick first [] (gap_text h)) out.old at out.new result }
{
    if first {
        return at;
    }
    write_gap(out, at, h)
}

fn write_closing(out: &mut [u8], at: usize, h: u32) -> usize
    requires { at + length (closing_text h) ≤ length out.old }
    ensures { Wrote (closing_text h) out.old at out.new result }
{
    if h / 64 == 2 {
        return text(out, at, b"}");
    }
    text(out, at, b"]")
}

// ---- equal children: the first one's bytes again
fn write_again(out: &mut [u8], at: usize, from: usize, to: usize) -> usize
    requires { (from ≤ to) × (to ≤ at) × (at + (to - from) ≤ length out.old) }
    ensures { Wrote (take (to - from) (drop from out.old)) out.old at out.new result }
{
    for i in 0..to - from {
        out[at + i] = out[from + i];
    }
    at + (to - from)
}

// the child whose text stands at places from .. to - 1, n times more
fn write_copies(out: &mut [u8], from: usize, to: usize, h: u32, n: u64) -> usize
    requires { (from ≤ to) × (to + length (copies n (gap_text h ++ take (to - from) (drop from out.old))) ≤ length out.old) }
    ensures { Wrote (copies n (gap_text h ++ take (to - from) (drop from out.old))) out.old to out.new result }
{
    let mut at = to;
    for k in 0..n {
        let a = write_gap(out, at, h);
        at = write_again(out, a, from, to);
    }
    at
}

// The text of term a where m is the surrounding precedence, from place at0 on.
pub fn write_term(
    out: &mut [u8],
    at0: usize,
    table: &[u8],
    terms: &[u32],
    runs: &[u64],
    a: usize,
    m: usize,
) -> usize
    requires { Holds terms.now runs.now × (a < count_in terms.now) × AllSigned table.now (pool_of terms.now runs.now) a × (at0 + length (card_text table.now (pool_of terms.now runs.now) m a) ≤ length out.old) }
    ensures { Wrote (card_text table.now (pool_of terms.now runs.now) m a) out.old at0 out.new result }
{
    let form = form_of(table, terms, runs, a, m);
    match form {
        Form::Literal(v, o) => write_literal(out, at0, v, o),
        Form::Between(x) => {
            let b = write_where(out, at0, x.bracketed, b"(");
            let c = write_term(out, b, table, terms, runs, x.left.term, x.left.level);
            let d = write_between(out, c, table, x.operation);
            let e = write_term(out, d, table, terms, runs, x.right.term, x.right.level);
            write_where(out, e, x.bracketed, b")")
        }
        Form::Series(h, from, to) => {
            let mut at = write_opening(out, at0, table, h);
            for i in from..to {
                let b = write_gap_after(out, at, h, i == from);
                let c = write_term(out, b, table, terms, runs, terms::child(runs[i]), 0);
                at = write_copies(out, b, c, h, terms::times(runs[i]) - 1);
            }
            write_closing(out, at, h)
        }
    }
}
