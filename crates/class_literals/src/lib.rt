// Rule 10 of the table of refusals, one class: whether a literal of it stands in a later class.
#![tactic(auto)]

ghost use Rattle.std.specs.Prelude.{◌≡◌, ◌+◌, ◌<◌, drop, eqb};
ghost use Rattle.spec.specs.Bytes.{any, both};
ghost use Rattle.spec.specs.Image.{Lit, kind_of, tables_of, the_member};
ghost use Rattle.laws.specs.Valid.{Spans};
ghost use Rattle.laws.specs.AcceptedLiterals.{is_literal};
ghost use Rattle.laws.specs.Doubled.{doubled_later};
ghost use Rattle.image.specs.Loaded.{Loaded};
ghost use Rattle.class_literals.specs.Slots.{Marks, SLOTS, slot_of};

use classes::{first_member, member_count};
use id::LIT;
use image::Image;
use members::{member_op, member_value};
use numbers::size_u16;
use operations::kind;

// whether member m is the literal v of operation o
fn is_literal(s: &[u8], im: Image, o: usize, v: u64, m: usize) -> bool
    requires { Loaded s.now im × (m < im.members) × (kind_of (tables_of s.now) o ≡ Lit) }
    ensures { result ≡ is_literal (tables_of s.now) (o, v) (the_member (tables_of s.now) m) }
{
    if member_value(s, im, m) != v {
        return false;
    }
    if member_op(s, im, m) != o {
        return false;
    }
    true
}

// whether it stands among the members from `from` on
fn literal_from(s: &[u8], im: Image, o: usize, v: u64, from: usize) -> bool
    requires { Loaded s.now im × (kind_of (tables_of s.now) o ≡ Lit) }
    ensures { result ≡ any (is_literal (tables_of s.now) (o, v)) (drop from (tables_of s.now).members) }
{
    for m in from..im.members {
        if is_literal(s, im, o, v, m) {
            return true;
        }
    }
    false
}

// Where a literal is marked: a number below 4,093.
pub fn slot(o: usize, v: u64) -> usize
    ensures { (result ≡ slot_of o v) × (result < SLOTS) }
{
    ((v % 4093 + o as u64 % 4093) % 4093) as usize
}

// whether member m is a literal that stands among the members from `to` on
fn member_doubled(s: &[u8], im: Image, last: &[u16; 4093], m: usize, to: usize) -> bool
    requires { Loaded s.now im × (m < im.members) × Spans (tables_of s.now) × Marks (tables_of s.now) last.now }
    ensures { result ≡ both (eqb (kind_of (tables_of s.now) (the_member (tables_of s.now) m).op) Lit) (any (is_literal (tables_of s.now) ((the_member (tables_of s.now) m).op, (the_member (tables_of s.now) m).value)) (drop to (tables_of s.now).members)) }
{
    let o = member_op(s, im, m);
    if kind(s, im, o) != LIT {
        return false;
    }
    let v = member_value(s, im, m);
    let at = slot(o, v);
    if size_u16(last[at]) <= to {
        return false;
    }
    literal_from(s, im, o, v, to)
}

// whether a literal of class c stands in a later class
pub fn class_doubled(s: &[u8], im: Image, last: &[u16; 4093], c: usize) -> bool
    requires { Loaded s.now im × (c < im.classes) × Spans (tables_of s.now) × Marks (tables_of s.now) last.now }
    ensures { result ≡ doubled_later (tables_of s.now) c }
{
    let from = first_member(s, im, c);
    let n = member_count(s, im, c);
    for i in 0..n {
        if member_doubled(s, im, last, from + i, from + n) {
            return true;
        }
    }
    false
}
