// The width of a listing's lines before they are written: their bytes, counted.
#![tactic(auto)]

ghost use Rattle.std.specs.Prelude.{◌≡◌, ◌+◌, ◌*◌, ◌-◌, ◌%◌, ◌≤◌, ◌<◌, length, get_or};
ghost use Rattle.terms.specs.Chains.{Holds};
ghost use Rattle.widths.specs.Lines.{run_in, runs_in, head_bytes, line_in, lines_in, Named, Ready};

use decimals::digits;

fn run_width(marks: &[u16], r: u64) -> usize
    requires { 0 < get_or marks.now (2 * (r % 16384)) 0 }
    ensures { (result ≡ length (run_in marks.now r)) × (result ≤ 42) }
{
    let a = digits(numbering::number_of(marks, terms::child(r)));
    1 + a + 1 + digits(terms::times(r))
}

fn runs_width(runs: &[u64], marks: &[u16], from: usize, to: usize) -> usize
    requires { (from ≤ to) × (to ≤ 65536) × (to ≤ length runs.now) × Named marks.now runs.now from to }
    ensures { (result ≡ length (runs_in runs.now marks.now from (to - from))) × (result ≤ 42 * 65536) }
{
    let mut n = 0;
    for i in from..to {
        n += run_width(marks, runs[i]);
    }
    n
}

fn head_width(h: u32, v: u32) -> usize
    ensures { (result ≡ length (head_bytes h v)) × (result ≤ 46) }
{
    if h / 64 == 1 {
        let a = digits(numbers::long_u32(h % 64));
        return 5 + a + 1 + digits(numbers::long_u32(v));
    }
    if h / 64 == 2 {
        return 9;
    }
    4 + digits(numbers::long_u32(h % 64))
}

fn line_width(terms: &[u32], runs: &[u64], marks: &[u16], n: usize, k: usize) -> usize
    requires { Holds terms.now runs.now × Ready terms.now runs.now marks.now n × (k < n) }
    ensures { (result ≡ length (line_in terms.now runs.now marks.now k)) × (result ≤ 3000000) }
{
    let t = numbering::term_at(marks, k);
    let from = terms::first(terms, t);
    let to = terms::first(terms, t + 1);
    let a = digits(numbers::long_size(k));
    let b = head_width(terms::head(terms, t), terms::value(terms, t));
    a + b + runs_width(runs, marks, from, to) + 1
}

// The length of the n lines behind the first line.
pub fn lines_width(terms: &[u32], runs: &[u64], marks: &[u16], n: usize) -> usize
    requires { Holds terms.now runs.now × Ready terms.now runs.now marks.now n }
    ensures { (result ≡ length (lines_in terms.now runs.now marks.now 0 n)) × (result ≤ 3000000 * 16384) }
{
    let mut w = 0;
    for k in 0..n {
        w += line_width(terms, runs, marks, n, k);
    }
    w
}
