// The lines of a card, for any caller: no precondition; refuses by its number.
#![tactic(auto)]

ghost use Rattle.std.specs.Prelude.{◌≡◌, not, ◌*◌, ◌≤◌, ◌<◌, length};
ghost use Rattle.spec.specs.Run.{document_limits};
ghost use Rattle.formula.specs.Lines.{lines_of_card};
ghost use Rattle.terms.specs.Buffers.{count_in, pool_of};
ghost use Rattle.terms.specs.Chains.{Holds};
ghost use Rattle.card_contract.specs.Calls.{fit_of, fits_text, Answers, Reads, Cleared};
ghost use Rattle.card_to_lines.specs.LineLaws.{answer_as, listed_term, fit_text, Roomy};

use card_buffers::{clear_all, short};
use card_contract::Answer;
use card_reader::Unread;
use spec::Caller;

// what was written of lines, as the answer
fn answer_of(w: Option<usize>) -> Answer
    ensures { result ≡ answer_as w }
{
    match w {
        Some(n) => Answer::Text(n),
        None => Answer::Refused(14),
    }
}

// The lines of a term of the pool, or 14 with the output as it was.
fn list_term(terms: &[u32], runs: &[u64], marks: &mut [u16], out: &mut [u8], root: usize) -> Answer
    requires { Holds terms.now runs.now × (root < count_in terms.now) × (2 * count_in terms.now ≤ length marks.old) }
    ensures { Answers (listed_term (pool_of terms.now runs.now) root (length out.old)) out.old out.new result }
{
    let w = listing::list_behind(b"", terms, runs, marks, out, root);
    answer_of(w)
}

// the text read into the pool's buffers, and its term's lines
fn lines_of(
    table: &[u8],
    text: &[u8],
    frames: &mut [u64],
    marks: &mut [u16],
    terms: &mut [u32],
    runs: &mut [u64],
    out: &mut [u8],
) -> Answer
    requires { Roomy (length text.now) (length frames.old) (length marks.old) (length terms.old) (length runs.old) }
    ensures { Answers (lines_of_card document_limits table.now text.now (length out.old)) out.old out.new result }
{
    let mut binds = [0u8; 64];
    sign_judge::judge(table, &mut binds);
    terms::empty(terms);
    let lim = query::limits_for(Caller::Desk);
    match card_reader::read_card(lim, table, &binds, text, frames, terms, runs) {
        Ok(a) => list_term(terms, runs, marks, out, a),
        Err(Unread::NoFormula) => Answer::Refused(17),
        Err(Unread::Full) => Answer::Refused(13),
    }
}

// 1: whether a work buffer is too short for a text of so many bytes
fn too_short(text: usize, frames: usize, marks: usize, terms: usize, runs: usize) -> bool
    ensures { result ≡ not (fit_text text frames marks terms runs) }
{
    if text >= 281474976710656 {
        return true;
    }
    short(text, frames, marks, terms, runs)
}

// The lines of the term that a card is of, at the front of `out`: those of its listing behind the first one. The work buffers are cleared.
pub fn lines_of_card(
    table: &[u8],
    text: &[u8],
    frames: &mut [u64],
    marks: &mut [u16],
    terms: &mut [u32],
    runs: &mut [u64],
    out: &mut [u8],
) -> Answer
    ensures { let fit = fits_text text.now frames.old marks.old terms.old runs.old in Reads table.now text.now fit out.old out.new result × Cleared fit frames.old frames.new marks.old marks.new terms.old terms.new runs.old runs.new }
{
    if too_short(
        text.len(),
        frames.len(),
        marks.len(),
        terms.len(),
        runs.len(),
    ) {
        return Answer::Refused(1);
    }
    let r = lines_of(table, text, frames, marks, terms, runs, out);
    clear_all(frames, marks, terms, runs);
    r
}
