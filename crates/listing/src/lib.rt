// The listing of a run: its first line written apart; its terms numbered, its lines measured; then written or refused.
#![tactic(auto)]

ghost use Rattle.std.specs.Prelude.{◌*◌, ◌≤◌, ◌<◌, length};
ghost use Rattle.terms.specs.Buffers.{count_in};
ghost use Rattle.terms.specs.Chains.{Holds};
ghost use Rattle.listing.specs.Lists.{Behind, Lists};

use first_line::{LONGEST, Report};

// The lines of a term of the pool that the buffers hold, behind a head of at most so many bytes as a first line has: written, and how many bytes they are; None: they exceed the output (refusal 14), which is as it was.
pub fn list_behind(
    head: &[u8],
    terms: &[u32],
    runs: &[u64],
    marks: &mut [u16],
    out: &mut [u8],
    root: usize,
) -> Option<usize>
    requires { Holds terms.now runs.now × (root < count_in terms.now) × (2 * count_in terms.now ≤ length marks.old) × (length head.now ≤ LONGEST) }
    ensures { Behind head.now terms.now runs.now root marks.old out.old marks.new out.new result }
{
    let n = numbering::number_all(terms, runs, marks, root);
    let size = head.len() + widths::lines_width(terms, runs, marks, n);
    if size > out.len() {
        return None;
    }
    let at = decimals::text(out, 0, head);
    lines::write_lines(out, at, terms, runs, marks, n);
    Some(size)
}

// The listing of a run whose pool the buffers hold: written, and how many bytes it is; None: it exceeds the output (refusal 14), which is as it was.
pub fn list(
    terms: &[u32],
    runs: &[u64],
    marks: &mut [u16],
    out: &mut [u8],
    root: usize,
    f: Report,
) -> Option<usize>
    requires { Holds terms.now runs.now × (root < count_in terms.now) × (2 * count_in terms.now ≤ length marks.old) }
    ensures { Lists terms.now runs.now root f marks.old out.old marks.new out.new result }
{
    let mut line = [0u8; LONGEST];
    let w = first_line::write_first(&mut line, f);
    list_behind(&line[0..w], terms, runs, marks, out, root)
}
