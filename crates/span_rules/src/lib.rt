// Rule 7 of the table of refusals, "a span, operation number, order or literal field breaks its rule": the test equals its definition. specs/Within: what rule 7 gives to the later ones.
#![tactic(auto)]

ghost use Rattle.std.specs.Prelude.{◌≡◌, map, ◌<◌, length, leb};
ghost use Rattle.spec.specs.Bytes.{all};
ghost use Rattle.spec.specs.Image.{member_right, members_in, rises, spans_follow, spans_right, tables_of, the_class, the_member};
ghost use Rattle.laws.specs.Valid.{Follow, class_spans, member_spans};
ghost use Rattle.image.specs.Loaded.{Loaded};

use classes::{first_member, member_count};
use id::LIT;
use image::Image;
use members::{child_count, first_child, member_op, member_value};
use operations::kind;

// "Spans follow one another without gaps and use up the tables": the members of the classes
fn classes_follow(s: &[u8], im: Image) -> bool
    requires { Loaded s.now im }
    ensures { result ≡ spans_follow (length (tables_of s.now).members) 0 (class_spans (tables_of s.now)) }
{
    let mut at = 0;
    for c in 0..im.classes {
        if first_member(s, im, c) != at {
            return false;
        }
        at = at + member_count(s, im, c);
    }
    at == im.members
}

// the children of the members
fn members_follow(s: &[u8], im: Image) -> bool
    requires { Loaded s.now im }
    ensures { result ≡ spans_follow (length (tables_of s.now).children) 0 (member_spans (tables_of s.now)) }
{
    let mut at = 0;
    for m in 0..im.members {
        if first_child(s, im, m) != at {
            return false;
        }
        at = at + child_count(s, im, m);
    }
    at == im.children
}

// "member count (at least 1)"
fn counts_some(s: &[u8], im: Image) -> bool
    requires { Loaded s.now im }
    ensures { result ≡ all (λ c. leb 1 c.count) (tables_of s.now).classes }
{
    for c in 0..im.classes {
        if member_count(s, im, c) < 1 {
            return false;
        }
    }
    true
}

// operation number, child count, literal field
fn member_right(s: &[u8], im: Image, m: usize) -> bool
    requires { Loaded s.now im × (m < im.members) }
    ensures { result ≡ member_right (tables_of s.now) (the_member (tables_of s.now) m) }
{
    let o = member_op(s, im, m);
    if o >= im.operations {
        return false;
    }
    if child_count(s, im, m) > Image::ARITY {
        return false;
    }
    if member_value(s, im, m) == 0 {
        return true;
    }
    kind(s, im, o) == LIT
}

fn members_right(s: &[u8], im: Image) -> bool
    requires { Loaded s.now im }
    ensures { result ≡ all (member_right (tables_of s.now)) (tables_of s.now).members }
{
    for m in 0..im.members {
        if !member_right(s, im, m) {
            return false;
        }
    }
    true
}

// "Members of a class stand in non-falling operation order."
fn class_rises(s: &[u8], im: Image, c: usize) -> bool
    requires { Loaded s.now im × (c < im.classes) × Follow (length (tables_of s.now).members) (class_spans (tables_of s.now)) }
    ensures { result ≡ rises (map (λ m. m.op) (members_in (tables_of s.now) (the_class (tables_of s.now) c))) }
{
    let from = first_member(s, im, c);
    let n = member_count(s, im, c);
    let mut last = 0;
    for i in 0..n {
        let o = member_op(s, im, from + i);
        if o < last {
            return false;
        }
        last = o;
    }
    true
}

fn classes_rise(s: &[u8], im: Image) -> bool
    requires { Loaded s.now im × Follow (length (tables_of s.now).members) (class_spans (tables_of s.now)) }
    ensures { result ≡ all (λ c. rises (map (λ m. m.op) (members_in (tables_of s.now) c))) (tables_of s.now).classes }
{
    for c in 0..im.classes {
        if !class_rises(s, im, c) {
            return false;
        }
    }
    true
}

pub fn spans_right(s: &[u8], im: Image) -> bool
    requires { Loaded s.now im }
    ensures { result ≡ spans_right (tables_of s.now) }
{
    if !classes_follow(s, im) {
        return false;
    }
    if !members_follow(s, im) {
        return false;
    }
    if !counts_some(s, im) {
        return false;
    }
    if !members_right(s, im) {
        return false;
    }
    classes_rise(s, im)
}
