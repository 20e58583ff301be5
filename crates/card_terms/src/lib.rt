// The terms of a formula entered: its marks from the left, over a stack of pool numbers.
#![tactic(auto)]

ghost use Rattle.std.specs.Prelude.{◌≡◌, ◌≢◌, true, map, [], ◌+◌, ◌*◌, ◌-◌, ◌^◌, ◌≤◌, ◌<◌, length, get_or, set, replicate};
ghost use Rattle.spec.specs.Bytes.{sum};
ghost use Rattle.spec.specs.Pool.{lit_node};
ghost use Rattle.pools.specs.Pool.{RunsBelow};
ghost use Rattle.query.specs.Settings.{limits_of};
ghost use Rattle.terms.specs.Buffers.{count_in, part, unpack, pool_of};
ghost use Rattle.terms.specs.Chains.{Holds, Rooms};
ghost use Rattle.formula.specs.Card as card;
ghost use Rattle.formula.specs.Card.{bindings, proper, proper_mark};
ghost use Rattle.card_cut.specs.Cutting.{mark_of};
ghost use Rattle.card_terms.specs.Words.{stuck, intern_on, reduce_top, close_on, step_on, run_on, words_in, enter_text};
ghost use Rattle.card_terms.specs.Reading.{HeadFormed, head_node, TermIn, Enters, Items, Placed, Standing, Known, Topped, LeftBelow, reduced_once, Closes, Heads, Waits, Steps, Ends, Reads};

use card_cut::Mark;
use query::Limits;

// A word of the stack: below 16,384 what is open, by its head number (a list by its operation, 128 a marked place, 64 a bracket); a term as a run of 1; a left child as a run of 2 and its operation.
// What enters terms answers how high the stack is afterwards; None: refusal 13.

// ---- a term entered, and put on the stack
// the term with head h over the first n runs of list, joined in place
fn enter_items(
    lim: Limits,
    list: &mut [u64],
    n: usize,
    h: u32,
    terms: &mut [u32],
    runs: &mut [u64],
) -> Option<usize>
    requires { Holds terms.old runs.old × Rooms (limits_of lim) terms.old runs.old × HeadFormed h × (n ≤ length list.old) × (sum (part list.old 0 n) < 2 ^ 64) × RunsBelow (count_in terms.old) (map unpack (part list.old 0 n)) }
    ensures { Enters (limits_of lim) terms.old runs.old terms.new runs.new (head_node h (map unpack (part list.old 0 n))) result }
{
    let m = joining::join_runs(list, n);
    interning::intern(lim, terms, runs, list, m, h, 0)
}

// a term put on the stack
fn place(frames: &mut [u64], to: usize, r: Option<usize>) -> Option<usize>
    requires { (to < length frames.old) × TermIn 16384 r }
    ensures { Placed frames.old to r frames.new result }
{
    let a = r?;
    stores::put_u64(frames, to, 16384 + numbers::long_size(a));
    Some(to + 1)
}

// the term with head h over the runs of frames from one place to the top, put in their place or below them
fn intern_items(
    lim: Limits,
    frames: &mut [u64],
    to: usize,
    from: usize,
    top: usize,
    h: u32,
    terms: &mut [u32],
    runs: &mut [u64],
) -> Option<usize>
    requires { Standing (limits_of lim) terms.old runs.old frames.old to × HeadFormed h × (to ≤ from) × (from ≤ top) × (to < top) × (top ≤ length frames.old) × (top < 2 ^ 48) × Items (count_in terms.old) (part frames.old from (top - from)) }
    ensures { Steps (limits_of lim) terms.old runs.old terms.new runs.new frames.new (to + 1) (intern_on (limits_of lim) (pool_of terms.old runs.old) (head_node h (map unpack (part frames.old from (top - from)))) (words_in frames.old to)) result }
{
    let r = enter_items(lim, &mut frames[from..], top - from, h, terms, runs);
    place(frames, to, r)
}

// a literal's term on top
fn intern_literal(
    lim: Limits,
    frames: &mut [u64],
    top: usize,
    v: u32,
    o: u8,
    terms: &mut [u32],
    runs: &mut [u64],
) -> Option<usize>
    requires { Standing (limits_of lim) terms.old runs.old frames.old top × (top < length frames.old) × (o < 64) }
    ensures { Steps (limits_of lim) terms.old runs.old terms.new runs.new frames.new (top + 1) (intern_on (limits_of lim) (pool_of terms.old runs.old) (lit_node o v) (words_in frames.old top)) result }
{
    let h = numbers::short_size(64 + numbers::size_u8(o));
    let r = interning::intern(lim, terms, runs, frames, 0, h, v);
    place(frames, top, r)
}

// ---- "by precedence"
// whether there is a left child below the term on top, of an operation that binds at least as much as m
fn waits(table: &[u8], frames: &[u64], top: usize, m: usize) -> bool
    requires { (top ≤ length frames.now) × Known table.now (words_in frames.now top) × Topped (words_in frames.now top) }
    ensures { Waits table.now m frames.now top result }
{
    if top < 2 {
        return false;
    }
    if frames[top - 1] < 16384 {
        return false;
    }
    let y = frames[top - 2];
    if y < 32768 {
        return false;
    }
    m <= signs::precedence(table, numbers::size_u64(y / 16384 - 2))
}

// the term on top and the left child below it as an operation's term
fn reduce_once(
    lim: Limits,
    frames: &mut [u64],
    n: usize,
    terms: &mut [u32],
    runs: &mut [u64],
) -> Option<usize>
    requires { Standing (limits_of lim) terms.old runs.old frames.old n × LeftBelow frames.old n × (n < 2 ^ 48) }
    ensures { Steps (limits_of lim) terms.old runs.old terms.new runs.new frames.new (n - 2 + 1) (reduced_once (limits_of lim) (pool_of terms.old runs.old) frames.old n) result }
{
    let y = frames[n - 2];
    stores::put_u64(frames, n - 2, 16384 + y % 16384);
    let h = numbers::short_u64(y / 16384 - 2);
    intern_items(lim, frames, n - 2, n - 2, n, h, terms, runs)
}

// everything on the left that binds at least as much as m is finished
fn reduce(
    lim: Limits,
    table: &[u8],
    frames: &mut [u64],
    top: usize,
    m: usize,
    terms: &mut [u32],
    runs: &mut [u64],
) -> Option<usize>
    requires { Standing (limits_of lim) terms.old runs.old frames.old top × Known table.now (words_in frames.old top) × Topped (words_in frames.old top) × (top < 2 ^ 48) }
    ensures { Steps (limits_of lim) terms.old runs.old terms.new runs.new frames.new top (reduce_top (limits_of lim) table.now m (pool_of terms.old runs.old) (words_in frames.old top)) result }
{
    let mut n = top;
    // no range: as long as the stack has something to finish
    while waits(table, frames, n, m) {
        n = reduce_once(lim, frames, n, terms, runs)?;
    }
    Some(n)
}

// ---- the marks
// where the items of the list or marked place on top begin
fn first_item(frames: &[u64], top: usize) -> usize
    requires { (top ≤ length frames.now) × Closes (words_in frames.now top) }
    ensures { Heads frames.now top result }
{
    let mut i = top;
    // no range: down to the head, which the contract says is there
    while frames[i - 1] >= 16384 {
        i -= 1;
    }
    i
}

// the list or marked place on top as a term
fn close(
    lim: Limits,
    frames: &mut [u64],
    top: usize,
    terms: &mut [u32],
    runs: &mut [u64],
) -> Option<usize>
    requires { Standing (limits_of lim) terms.old runs.old frames.old top × Closes (words_in frames.old top) × (top < 2 ^ 48) }
    ensures { Steps (limits_of lim) terms.old runs.old terms.new runs.new frames.new top (close_on (limits_of lim) (pool_of terms.old runs.old) (words_in frames.old top) []) result }
{
    let from = first_item(frames, top);
    let h = numbers::short_u64(frames[from - 1]);
    intern_items(lim, frames, from - 1, from, top, h, terms, runs)
}

// `]` or `}`: the last child finished, then closed
fn close_last(
    lim: Limits,
    table: &[u8],
    frames: &mut [u64],
    top: usize,
    terms: &mut [u32],
    runs: &mut [u64],
) -> Option<usize>
    requires { Standing (limits_of lim) terms.old runs.old frames.old top × Known table.now (words_in frames.old top) × (top < 2 ^ 48) × (step_on (limits_of lim) table.now (pool_of terms.old runs.old, words_in frames.old top) card.close ≢ stuck) }
    ensures { Steps (limits_of lim) terms.old runs.old terms.new runs.new frames.new top (step_on (limits_of lim) table.now (pool_of terms.old runs.old, words_in frames.old top) card.close) result }
{
    let n = reduce(lim, table, frames, top, 0, terms, runs)?;
    close(lim, frames, n, terms, runs)
}

// the bracket below the term on top goes
fn drop_bracket(frames: &mut [u64], n: usize)
    requires { (2 ≤ n) × (n ≤ length frames.old) }
    ensures { frames.new ≡ set frames.old (n - 2) (get_or frames.old (n - 1) 0) }
{
    let x = frames[n - 1];
    stores::put_u64(frames, n - 2, x);
}

// `)`: what it encloses finished, then the bracket goes
fn shut(
    lim: Limits,
    table: &[u8],
    frames: &mut [u64],
    top: usize,
    terms: &mut [u32],
    runs: &mut [u64],
) -> Option<usize>
    requires { Standing (limits_of lim) terms.old runs.old frames.old top × Known table.now (words_in frames.old top) × (top < 2 ^ 48) × (step_on (limits_of lim) table.now (pool_of terms.old runs.old, words_in frames.old top) card.shuts ≢ stuck) }
    ensures { Steps (limits_of lim) terms.old runs.old terms.new runs.new frames.new top (step_on (limits_of lim) table.now (pool_of terms.old runs.old, words_in frames.old top) card.shuts) result }
{
    let n = reduce(lim, table, frames, top, 0, terms, runs)?;
    drop_bracket(frames, n);
    Some(n - 1)
}

// the term on top is the left child of operation o
fn turn_left(frames: &mut [u64], n: usize, o: usize)
    requires { (0 < n) × (n ≤ length frames.old) × (get_or frames.old (n - 1) 0 < 32768) × (o < 64) }
    ensures { frames.new ≡ set frames.old (n - 1) (get_or frames.old (n - 1) 0 + (o + 1) * 16384) }
{
    let x = frames[n - 1];
    stores::put_u64(frames, n - 1, x + (numbers::long_size(o) + 1) * 16384);
}

// a sign between two children: what binds more on its left is finished
fn between(
    lim: Limits,
    table: &[u8],
    frames: &mut [u64],
    top: usize,
    o: usize,
    terms: &mut [u32],
    runs: &mut [u64],
) -> Option<usize>
    requires { Standing (limits_of lim) terms.old runs.old frames.old top × Known table.now (words_in frames.old top) × (top < 2 ^ 48) × (proper table.now o ≡ true) × (step_on (limits_of lim) table.now (pool_of terms.old runs.old, words_in frames.old top) (card.between o) ≢ stuck) }
    ensures { Steps (limits_of lim) terms.old runs.old terms.new runs.new frames.new top (step_on (limits_of lim) table.now (pool_of terms.old runs.old, words_in frames.old top) (card.between o)) result }
{
    let m = signs::left_level(table, signs::precedence(table, o));
    let n = reduce(lim, table, frames, top, m, terms, runs)?;
    turn_left(frames, n, o);
    Some(n)
}

// what is open, on top
fn put_open(frames: &mut [u64], top: usize, x: u64) -> Option<usize>
    requires { top < length frames.old }
    ensures { (frames.new ≡ set frames.old top x) × (result ≡ Some (top + 1)) }
{
    stores::put_u64(frames, top, x);
    Some(top + 1)
}

// one mark
fn step(
    lim: Limits,
    table: &[u8],
    frames: &mut [u64],
    top: usize,
    mark: Mark,
    terms: &mut [u32],
    runs: &mut [u64],
) -> Option<usize>
    requires { Standing (limits_of lim) terms.old runs.old frames.old top × Known table.now (words_in frames.old top) × (top < length frames.old) × (top < 2 ^ 48) × (proper_mark table.now (mark_of mark) ≡ true) × (step_on (limits_of lim) table.now (pool_of terms.old runs.old, words_in frames.old top) (mark_of mark) ≢ stuck) }
    ensures { Steps (limits_of lim) terms.old runs.old terms.new runs.new frames.new (top + 1) (step_on (limits_of lim) table.now (pool_of terms.old runs.old, words_in frames.old top) (mark_of mark)) result }
{
    match mark {
        Mark::Literal(v, o) => intern_literal(lim, frames, top, v, o, terms, runs),
        Mark::Between(o) => between(lim, table, frames, top, numbers::size_u8(o), terms, runs),
        Mark::List(o) => put_open(frames, top, numbers::long_size(numbers::size_u8(o))),
        Mark::Next => reduce(lim, table, frames, top, 0, terms, runs),
        Mark::Close => close_last(lim, table, frames, top, terms, runs),
        Mark::Opens => put_open(frames, top, 64),
        Mark::Shuts => shut(lim, table, frames, top, terms, runs),
        Mark::Begin => put_open(frames, top, 128),
        Mark::Or => reduce(lim, table, frames, top, 0, terms, runs),
        Mark::End => close_last(lim, table, frames, top, terms, runs),
    }
}

// ---- the text
// the one term that is left
fn last(
    lim: Limits,
    table: &[u8],
    frames: &mut [u64],
    top: usize,
    terms: &mut [u32],
    runs: &mut [u64],
) -> Option<usize>
    requires { Standing (limits_of lim) terms.old runs.old frames.old top × Known table.now (words_in frames.old top) × (top < 2 ^ 48) × (run_on (limits_of lim) table.now (pool_of terms.old runs.old, words_in frames.old top) [] ≢ stuck) }
    ensures { Ends terms.old runs.old terms.new runs.new (run_on (limits_of lim) table.now (pool_of terms.old runs.old, words_in frames.old top) []) result }
{
    reduce(lim, table, frames, top, 0, terms, runs)?;
    Some(numbers::size_u64(frames[0] - 16384))
}

// the text's marks from the left
fn read_terms(
    lim: Limits,
    table: &[u8],
    binds: &[u8; 64],
    text: &[u8],
    frames: &mut [u64],
    terms: &mut [u32],
    runs: &mut [u64],
) -> Option<usize>
    requires { Reads table.now text.now × (binds.now ≡ bindings table.now) × (length text.now ≤ length frames.old) × (length text.now < 2 ^ 48) × Holds terms.old runs.old × Rooms (limits_of lim) terms.old runs.old }
    ensures { Ends terms.old runs.old terms.new runs.new (enter_text (limits_of lim) table.now (pool_of terms.old runs.old) text.now) result }
{
    let mut at = 0;
    let mut top = 0;
    // no range: a cursor that goes on behind the mark that was read
    while at < text.len() {
        let (m, e) = card_cut::cut_mark(table, binds, text, at)?;
        top = step(lim, table, frames, top, m, terms, runs)?;
        at = e;
    }
    last(lim, table, frames, top, terms, runs)
}

// The term of a text that is a formula, entered, or refusal 13; the stack is cleared.
pub fn enter_terms(
    lim: Limits,
    table: &[u8],
    binds: &[u8; 64],
    text: &[u8],
    frames: &mut [u64],
    terms: &mut [u32],
    runs: &mut [u64],
) -> Option<usize>
    requires { Reads table.now text.now × (binds.now ≡ bindings table.now) × (length text.now ≤ length frames.old) × (length text.now < 2 ^ 48) × Holds terms.old runs.old × Rooms (limits_of lim) terms.old runs.old }
    ensures { Ends terms.old runs.old terms.new runs.new (enter_text (limits_of lim) table.now (pool_of terms.old runs.old) text.now) result × (frames.new ≡ replicate (length frames.old) 0) }
{
    let r = read_terms(lim, table, binds, text, frames, terms, runs);
    frames.fill(0);
    r
}
