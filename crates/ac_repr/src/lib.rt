// The representation pairs of two classes (ac_repr.rs), walked in the Rust's order without storing them: a state by value and a step.
#![tactic(auto)]

ghost use Rattle.std.specs.Prelude.{◌≡◌, suc, ◌≤◌, ◌<◌, Some};
ghost use Rattle.spec.specs.Image.{tables_of};
ghost use Rattle.laws.specs.Valid.{Valid};
ghost use Rattle.image.specs.Loaded.{Loaded};
ghost use Rattle.laws.specs.Firsts.{first_from};
ghost use Rattle.ac_repr.specs.Walk.{has_place, rows, under, pairs_from, walks, all_walks, after_of, Within, InRow, InOp, Stepped};

use ac_ops::next_op;
use image::Image;

// An operation, a place of the left class and a place of the right class.
#[derive(Clone, Copy)]
pub struct Walk {
    pub op: usize,
    pub a: usize,
    pub b: usize,
}

// ---- places of a class whose members end at `end`
fn has_place(s: &[u8], im: Image, end: usize, op: usize, x: usize) -> bool
    requires { Loaded s.now im × (end ≤ im.members) × (op < im.operations) }
    ensures { result ≡ has_place (tables_of s.now) end op x }
{
    if x < end {
        return members::member_op(s, im, x) == op;
    }
    if end < x {
        return false;
    }
    operations::identity(s, im, op) != Image::NO_IDENTITY
}

// The first place from x on that has a monomial; one past the end where there is none.
pub fn next_place(s: &[u8], im: Image, end: usize, op: usize, x: usize) -> usize
    requires { Loaded s.now im × (end ≤ im.members) × (op < im.operations) × (end < 131072) }
    ensures { result ≡ first_from (has_place (tables_of s.now) end op) x (suc end) }
{
    for i in x..end + 1 {
        if has_place(s, im, end, op, i) {
            return i;
        }
    }
    x.max(end + 1)
}

// ---- pairs under one operation
// Left place a beside the first right place from b on.
fn in_row(s: &[u8], im: Image, r: usize, op: usize, a: usize, b: usize) -> Option<Walk>
    requires { Loaded s.now im × Valid (tables_of s.now) × (r < im.classes) × (op < im.operations) }
    ensures { InRow (tables_of s.now) r op a b result }
{
    let right = classes::members_of(s, im, r);
    let y = next_place(s, im, right.to, op, b);
    if right.to < y {
        return None;
    }
    Some(Walk { op, a, b: y })
}

// The first left place from x on beside the first right place.
fn in_rows(s: &[u8], im: Image, l: usize, r: usize, op: usize, x: usize) -> Option<Walk>
    requires { Loaded s.now im × Valid (tables_of s.now) × (l < im.classes) × (r < im.classes) × (op < im.operations) }
    ensures { InOp (tables_of s.now) l r op (rows (tables_of s.now) l r op x) result }
{
    let left = classes::members_of(s, im, l);
    let a = next_place(s, im, left.to, op, x);
    if left.to < a {
        return None;
    }
    let b = classes::first_member(s, im, r);
    in_row(s, im, r, op, a, b)
}

// The first pair from w on under w's operation.
fn in_op(s: &[u8], im: Image, l: usize, r: usize, w: Walk) -> Option<Walk>
    requires { Loaded s.now im × Valid (tables_of s.now) × (l < im.classes) × (r < im.classes) × (w.op < im.operations) × (w.a < 131072) }
    ensures { InOp (tables_of s.now) l r w.op (under (tables_of s.now) l r w) result }
{
    let left = classes::members_of(s, im, l);
    if has_place(s, im, left.to, w.op, w.a)
        && let Some(v) = in_row(s, im, r, w.op, w.a, w.b)
    {
        return Some(v);
    }
    in_rows(s, im, l, r, w.op, w.a + 1)
}

// ---- pairs under all operations
// The first pair under an operation from o on.
fn from_op(s: &[u8], im: Image, l: usize, r: usize, o: usize) -> Option<Walk>
    requires { Loaded s.now im × Valid (tables_of s.now) × (l < im.classes) × (r < im.classes) }
    ensures { Stepped (tables_of s.now) l r (walks (tables_of s.now) l r) (pairs_from (tables_of s.now) l r o) result }
{
    let from = classes::first_member(s, im, l);
    let mut i = next_op(s, im, l, r, o);
    // no range: i goes on to the next operation that both classes have
    while i < im.operations {
        if let Some(v) = in_rows(s, im, l, r, i, from) {
            return Some(v);
        }
        i = next_op(s, im, l, r, i + 1);
    }
    None
}

// The first representation pair of two classes: "A class paired with itself has no actions."
pub fn first(s: &[u8], im: Image, l: usize, r: usize) -> Option<Walk>
    requires { Loaded s.now im × Valid (tables_of s.now) × (l < im.classes) × (r < im.classes) }
    ensures { Stepped (tables_of s.now) l r (walks (tables_of s.now) l r) (all_walks (tables_of s.now) l r) result }
{
    if l == r {
        return None;
    }
    from_op(s, im, l, r, 0)
}

// The representation pair after w.
pub fn next(s: &[u8], im: Image, l: usize, r: usize, w: Walk) -> Option<Walk>
    requires { Loaded s.now im × Valid (tables_of s.now) × (l < im.classes) × (r < im.classes) × Within (tables_of s.now) l r (Some w) }
    ensures { Stepped (tables_of s.now) l r (walks (tables_of s.now) l r) (walks (tables_of s.now) l r (after_of w)) result }
{
    let after = Walk {
        op: w.op,
        a: w.a,
        b: w.b + 1,
    };
    match in_op(s, im, l, r, after) {
        Some(v) => Some(v),
        None => from_op(s, im, l, r, w.op + 1),
    }
}
