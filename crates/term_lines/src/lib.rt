// The lines of a listing read: a term for each line, over the lines before it.
#![tactic(auto)]

ghost use Rattle.std.specs.Prelude.{◌≡◌, List, ℕ, ◌≤◌, length, drop};
ghost use Rattle.spec.specs.Pool.{RUNS};
ghost use Rattle.formula.specs.Lines.{CHILDREN, cut_node, cut_line};
ghost use Rattle.query.specs.Settings.{limits_of};
ghost use Rattle.terms.specs.Buffers.{count_in};
ghost use Rattle.terms.specs.Chains.{Holds, Rooms};
ghost use Rattle.term_lines.specs.Reading.{lit_at, op_at, variants_at, CutsChild, CutsCount, CutsRuns, CutsLine};
ghost use Rattle.term_lines.specs.Loading.{AddsLine, AddsLines, Loads};

use query::Limits;

// ---- a line
// the children of a line, counts written out
const CHILDREN: usize = 279172874175;

// why lines aren't read: 17; 13
#[derive(Clone, Copy, PartialEq, Eq, Debug)]
pub enum Fault {
    Broken,
    Full,
}

// how many runs, their counts together, and the place behind them
type Runs = (usize, usize, usize);

// head and operation, value, how many runs, and the place behind the line
type Line = (u32, u32, usize, usize);

// " child": below k, not the one before
fn cut_child(text: &[u8], at: usize, k: usize, last: usize) -> Option<(usize, usize)>
    requires { at ≤ length text.now }
    ensures { CutsChild k last text.now at result }
{
    let a = text_cut::cut_word(text, at, b" ")?;
    let (child, e) = text_cut::cut_number(text, a, 16383)?;
    if child >= k {
        return None;
    }
    if child == last {
        return None;
    }
    Some((child, e))
}

// ":count": from 1 to `left`
fn cut_count(text: &[u8], at: usize, left: usize) -> Option<(usize, usize)>
    requires { (at ≤ length text.now) × (left ≤ CHILDREN) }
    ensures { CutsCount left text.now at result }
{
    let a = text_cut::cut_word(text, at, b":")?;
    let (n, e) = text_cut::cut_number(text, a, left)?;
    if n == 0 {
        return None;
    }
    Some((n, e))
}

// the runs up to the line feed, at the front of `list`
fn cut_runs(text: &[u8], at0: usize, k: usize, list: &mut [u64]) -> Result<Runs, Fault>
    requires { (at0 ≤ length text.now) × (RUNS ≤ length list.old) }
    ensures { CutsRuns k text.now at0 list.new result }
{
    let mut at = at0;
    let mut n = 0;
    let mut last = k;
    let mut left = CHILDREN;
    // no range: until the line ends
    loop {
        if text_cut::starts_with(text, at, b"\n") {
            return Ok((n, CHILDREN - left, at + 1));
        }
        let (child, a) = cut_child(text, at, k, last).ok_or(Fault::Broken)?;
        let (count, e) = cut_count(text, a, left).ok_or(Fault::Broken)?;
        if n == 65536 {
            return Err(Fault::Full);
        }
        stores::put_u64(list, n, numbers::long_size(count * 16384 + child));
        last = child;
        left = left - count;
        at = e;
        n += 1;
    }
}

// a literal's operation and value, up to the line feed
fn cut_lit(text: &[u8], at: usize) -> Result<Line, Fault>
    requires { at ≤ length text.now }
    ensures { (list : List ℕ) → CutsLine (lit_at (drop at text.now)) text.now at list result }
{
    let (o, a) = text_cut::cut_number(text, at, 63).ok_or(Fault::Broken)?;
    let b = text_cut::cut_word(text, a, b" ").ok_or(Fault::Broken)?;
    let (v, c) = text_cut::cut_number(text, b, 4294967295).ok_or(Fault::Broken)?;
    let e = text_cut::cut_word(text, c, b"\n").ok_or(Fault::Broken)?;
    Ok((numbers::short_size(64 + o), numbers::short_size(v), 0, e))
}

// an operation and its runs
fn cut_op(text: &[u8], at: usize, k: usize, list: &mut [u64]) -> Result<Line, Fault>
    requires { (at ≤ length text.now) × (RUNS ≤ length list.old) }
    ensures { CutsLine (op_at k (drop at text.now)) text.now at list.new result }
{
    let (o, a) = text_cut::cut_number(text, at, 63).ok_or(Fault::Broken)?;
    let (n, _, e) = cut_runs(text, a, k, list)?;
    Ok((numbers::short_size(o), 0, n, e))
}

// a marked place: the runs of its two branches
fn cut_variants(text: &[u8], at: usize, k: usize, list: &mut [u64]) -> Result<Line, Fault>
    requires { (at ≤ length text.now) × (RUNS ≤ length list.old) }
    ensures { CutsLine (variants_at k (drop at text.now)) text.now at list.new result }
{
    let a = text_cut::cut_word(text, at, b" variants").ok_or(Fault::Broken)?;
    let (n, t, e) = cut_runs(text, a, k, list)?;
    if t != 2 {
        return Err(Fault::Broken);
    }
    Ok((128, 0, n, e))
}

fn cut_node(text: &[u8], at: usize, k: usize, list: &mut [u64]) -> Result<Line, Fault>
    requires { (at ≤ length text.now) × (RUNS ≤ length list.old) }
    ensures { CutsLine (cut_node k (drop at text.now)) text.now at list.new result }
{
    if text_cut::starts_with(text, at, b" lit ") {
        return cut_lit(text, at + 5);
    }
    if text_cut::starts_with(text, at, b" op ") {
        return cut_op(text, at + 4, k, list);
    }
    cut_variants(text, at, k, list)
}

// line k: its number, its node
fn cut_line(text: &[u8], at: usize, k: usize, list: &mut [u64]) -> Result<Line, Fault>
    requires { (at ≤ length text.now) × (RUNS ≤ length list.old) }
    ensures { CutsLine (cut_line k (drop at text.now)) text.now at list.new result }
{
    let a = text_cut::cut_decimal(text, at, k).ok_or(Fault::Broken)?;
    cut_node(text, a, k, list)
}

// ---- lines
// the line at a place, as a new term, and the place behind it
fn add_line(
    lim: Limits,
    text: &[u8],
    at: usize,
    list: &mut [u64],
    terms: &mut [u32],
    runs: &mut [u64],
) -> Result<usize, Fault>
    requires { (at ≤ length text.now) × (RUNS ≤ length list.old) × Holds terms.old runs.old × Rooms (limits_of lim) terms.old runs.old }
    ensures { AddsLine (limits_of lim) text.now at terms.old runs.old terms.new runs.new result }
{
    let k = terms::count(terms);
    let (h, v, n, e) = cut_line(text, at, k, list)?;
    let t = interning::intern(lim, terms, runs, list, n, h, v).ok_or(Fault::Full)?;
    if t != k {
        return Err(Fault::Broken);
    }
    Ok(e)
}

// line after line, into buffers that hold no term
fn add_lines(
    lim: Limits,
    text: &[u8],
    list: &mut [u64],
    terms: &mut [u32],
    runs: &mut [u64],
) -> Result<(), Fault>
    requires { (RUNS ≤ length list.old) × Holds terms.old runs.old × Rooms (limits_of lim) terms.old runs.old × (count_in terms.old ≡ 0) }
    ensures { AddsLines (limits_of lim) text.now terms.old runs.old terms.new runs.new result }
{
    let mut at = 0;
    // no range: a cursor that goes on behind the line that was read
    while at < text.len() {
        at = add_line(lim, text, at, list, terms, runs)?;
    }
    if terms::count(terms) == 0 {
        return Err(Fault::Broken);
    }
    Ok(())
}

// The lines of a listing behind its first line, whatever the pool's buffers held; `list` is work, cleared at the end.
pub fn read_lines(
    lim: Limits,
    text: &[u8],
    list: &mut [u64],
    terms: &mut [u32],
    runs: &mut [u64],
) -> Result<(), Fault>
    requires { (RUNS ≤ length list.old) × Rooms (limits_of lim) terms.old runs.old }
    ensures { Loads (limits_of lim) text.now list.old terms.old runs.old list.new terms.new runs.new result }
{
    terms::empty(terms);
    let r = add_lines(lim, text, list, terms, runs);
    list.fill(0);
    r
}
