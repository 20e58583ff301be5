// Whether a text is a formula, with no term in sight: the open frames on a stack.
#![tactic(auto)]

ghost use Rattle.std.specs.Prelude.{◌≡◌, ◌⊎◌, List, ℕ, ◌+◌, ◌≤◌, ◌<◌, length, replicate};
ghost use Rattle.formula.specs.Card.{bindings};
ghost use Rattle.formula_laws.specs.Syntax.{Open, Phase, begins, follows, pass};
ghost use Rattle.card_cut.specs.Cutting.{mark_of};
ghost use Rattle.card_syntax.specs.Passing.{is_formula, is_close, Stacked, Passes, Room, depth_of, popped, counted};
ghost use Rattle.card_syntax.specs.Reading.{is_done};

use card_cut::{Mark, cut_mark};
use stores::put_u64;

// right behind `[`, a child wanted, or one read, with so many frames on the stack; or no formula's marks: the four states of `Phase` (formula_laws), which the contracts name
#[derive(Clone, Copy)]
enum Pass {
    Fresh(usize),
    Wanted(usize),
    Done(usize),
    Failed,
}

// a frame is closed: its number is one of two
fn pop(frames: &[u64], n: usize, a: u64, b: u64) -> Pass
    requires { n ≤ length frames.now }
    ensures { Room (n + 1) result × ((k : List Open) → Stacked frames.now n k → Passes frames.now result (popped a b k)) }
{
    if n == 0 {
        return Pass::Failed;
    }
    let x = frames[n - 1];
    if x == a {
        return Pass::Done(n - 1);
    }
    if x == b {
        return Pass::Done(n - 1);
    }
    Pass::Failed
}

// a child more in a frame: lists are numbered from 1 on, marked places from 4 on
fn count(frames: &mut [u64], n: usize, low: u64) -> Pass
    requires { (n ≤ length frames.old) × ((low ≡ 1) ⊎ (low ≡ 4)) }
    ensures { Room (n + 1) result × ((k : List Open) → Stacked frames.old n k → Passes frames.new result (counted low k)) }
{
    if n == 0 {
        return Pass::Failed;
    }
    let x = frames[n - 1];
    if x < low {
        return Pass::Failed;
    }
    if x - low > 2 {
        return Pass::Failed;
    }
    if x - low < 2 {
        put_u64(frames, n - 1, x + 1);
    }
    Pass::Wanted(n)
}

// a mark where a child is wanted
fn begin(frames: &mut [u64], n: usize, m: Mark) -> Pass
    requires { n < length frames.old }
    ensures { Room (n + 2) result × ((k : List Open) → Stacked frames.old n k → Passes frames.new result (begins k (mark_of m))) }
{
    match m {
        Mark::Literal(_, _) => Pass::Done(n),
        Mark::Between(_) => Pass::Failed,
        Mark::List(_) => {
            put_u64(frames, n, 1);
            Pass::Fresh(n + 1)
        }
        Mark::Next => Pass::Failed,
        Mark::Close => Pass::Failed,
        Mark::Opens => {
            put_u64(frames, n, 0);
            Pass::Wanted(n + 1)
        }
        Mark::Shuts => Pass::Failed,
        Mark::Begin => {
            put_u64(frames, n, 4);
            Pass::Wanted(n + 1)
        }
        Mark::Or => Pass::Failed,
        Mark::End => Pass::Failed,
    }
}

// a mark behind a child
fn follow(frames: &mut [u64], n: usize, m: Mark) -> Pass
    requires { n ≤ length frames.old }
    ensures { Room (n + 2) result × ((k : List Open) → Stacked frames.old n k → Passes frames.new result (follows k (mark_of m))) }
{
    match m {
        Mark::Literal(_, _) => Pass::Failed,
        Mark::Between(_) => Pass::Wanted(n),
        Mark::List(_) => Pass::Failed,
        Mark::Next => count(frames, n, 1),
        Mark::Close => pop(frames, n, 1, 3),
        Mark::Opens => Pass::Failed,
        Mark::Shuts => pop(frames, n, 0, 0),
        Mark::Begin => Pass::Failed,
        Mark::Or => count(frames, n, 4),
        Mark::End => pop(frames, n, 5, 5),
    }
}

// `]`
fn is_close(m: Mark) -> bool
    ensures { result ≡ is_close (mark_of m) }
{
    match m {
        Mark::Literal(_, _) => false,
        Mark::Between(_) => false,
        Mark::List(_) => false,
        Mark::Next => false,
        Mark::Close => true,
        Mark::Opens => false,
        Mark::Shuts => false,
        Mark::Begin => false,
        Mark::Or => false,
        Mark::End => false,
    }
}

// one mark
fn step(frames: &mut [u64], p: Pass, m: Mark) -> Pass
    requires { Room (length frames.old) p }
    ensures { Room (depth_of p + 2) result × ((u : Phase) → Passes frames.old p u → Passes frames.new result (pass u (mark_of m))) }
{
    match p {
        Pass::Fresh(n) => {
            if is_close(m) {
                return Pass::Done(n - 1);
            }
            begin(frames, n, m)
        }
        Pass::Wanted(n) => begin(frames, n, m),
        Pass::Done(n) => follow(frames, n, m),
        Pass::Failed => Pass::Failed,
    }
}

// behind a child with nothing open
fn is_done(p: Pass) -> bool
    ensures { (f : List ℕ) (u : Phase) → Passes f p u → result ≡ is_done u }
{
    match p {
        Pass::Fresh(_) => false,
        Pass::Wanted(_) => false,
        Pass::Done(n) => n == 0,
        Pass::Failed => false,
    }
}

// mark by mark
fn read(table: &[u8], binds: &[u8; 64], text: &[u8], frames: &mut [u64]) -> bool
    requires { (binds.now ≡ bindings table.now) × (length text.now ≤ length frames.old) }
    ensures { result ≡ is_formula table.now text.now }
{
    let mut p = Pass::Wanted(0);
    let mut at = 0;
    // no range: a cursor that goes on behind the mark that was read
    while at < text.len() {
        let Some((m, e)) = cut_mark(table, binds, text, at) else {
            return false;
        };
        p = step(frames, p, m);
        at = e;
    }
    is_done(p)
}

// Whether a text is a formula; the frames are zero afterwards.
pub fn is_formula(table: &[u8], binds: &[u8; 64], text: &[u8], frames: &mut [u64]) -> bool
    requires { (binds.now ≡ bindings table.now) × (length text.now ≤ length frames.old) }
    ensures { (result ≡ is_formula table.now text.now) × (frames.new ≡ replicate (length frames.old) 0) }
{
    let r = read(table, binds, text, frames);
    frames.fill(0);
    r
}
