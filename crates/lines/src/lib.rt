// The listing's lines written: from a place on; each function answers the place after what it wrote.
#![tactic(auto)]

ghost use Rattle.std.specs.Prelude.{◌+◌, ◌*◌, ◌-◌, ◌%◌, ◌≤◌, ◌<◌, length, get_or};
ghost use Rattle.terms.specs.Chains.{Holds};
ghost use Rattle.decimals.specs.Writing.{Wrote};
ghost use Rattle.widths.specs.Lines.{run_in, runs_in, head_bytes, line_in, lines_in, Named, Ready};

use decimals::{decimal, labelled, text};

fn write_run(out: &mut [u8], at: usize, marks: &[u16], r: u64) -> usize
    requires { (0 < get_or marks.now (2 * (r % 16384)) 0) × (at + length (run_in marks.now r) ≤ length out.old) }
    ensures { Wrote (run_in marks.now r) out.old at out.new result }
{
    let a = labelled(out, at, b" ", numbering::number_of(marks, terms::child(r)));
    labelled(out, a, b":", terms::times(r))
}

fn write_runs(
    out: &mut [u8],
    at0: usize,
    runs: &[u64],
    marks: &[u16],
    from: usize,
    to: usize,
) -> usize
    requires { (from ≤ to) × (to ≤ length runs.now) × Named marks.now runs.now from to × (at0 + length (runs_in runs.now marks.now from (to - from)) ≤ length out.old) }
    ensures { Wrote (runs_in runs.now marks.now from (to - from)) out.old at0 out.new result }
{
    let mut at = at0;
    for i in from..to {
        at = write_run(out, at, marks, runs[i]);
    }
    at
}

fn write_head(out: &mut [u8], at: usize, h: u32, v: u32) -> usize
    requires { at + length (head_bytes h v) ≤ length out.old }
    ensures { Wrote (head_bytes h v) out.old at out.new result }
{
    if h / 64 == 1 {
        let a = labelled(out, at, b" lit ", numbers::long_u32(h % 64));
        return labelled(out, a, b" ", numbers::long_u32(v));
    }
    if h / 64 == 2 {
        return text(out, at, b" variants");
    }
    labelled(out, at, b" op ", numbers::long_u32(h % 64))
}

fn write_line(
    out: &mut [u8],
    at: usize,
    terms: &[u32],
    runs: &[u64],
    marks: &[u16],
    n: usize,
    k: usize,
) -> usize
    requires { Holds terms.now runs.now × Ready terms.now runs.now marks.now n × (k < n) × (at + length (line_in terms.now runs.now marks.now k) ≤ length out.old) }
    ensures { Wrote (line_in terms.now runs.now marks.now k) out.old at out.new result }
{
    let t = numbering::term_at(marks, k);
    let from = terms::first(terms, t);
    let to = terms::first(terms, t + 1);
    let a = decimal(out, at, numbers::long_size(k));
    let b = write_head(out, a, terms::head(terms, t), terms::value(terms, t));
    let c = write_runs(out, b, runs, marks, from, to);
    text(out, c, b"\n")
}

// The n lines behind the first line, from place at0 on.
pub fn write_lines(
    out: &mut [u8],
    at0: usize,
    terms: &[u32],
    runs: &[u64],
    marks: &[u16],
    n: usize,
) -> usize
    requires { Holds terms.now runs.now × Ready terms.now runs.now marks.now n × (at0 + length (lines_in terms.now runs.now marks.now 0 n) ≤ length out.old) }
    ensures { Wrote (lines_in terms.now runs.now marks.now 0 n) out.old at0 out.new result }
{
    let mut at = at0;
    for k in 0..n {
        at = write_line(out, at, terms, runs, marks, n, k);
    }
    at
}
