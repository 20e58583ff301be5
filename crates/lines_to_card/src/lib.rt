// The card of a listing's lines, for any caller: no precondition; refuses by its number.
#![tactic(auto)]

ghost use Rattle.std.specs.Prelude.{◌≡◌, length};
ghost use Rattle.spec.specs.Run.{document_limits};
ghost use Rattle.formula.specs.Lines.{card_of_lines};
ghost use Rattle.card_contract.specs.Calls.{fits_lines, Answers, Cards, Cleared};
ghost use Rattle.card_buffers.specs.BufferLaws.{Roomy};

use card_buffers::{clear_all, short};
use card_contract::Answer;
use spec::Caller;
use term_lines::Fault;

// How many runs a line may have: the numbers of `frames`.
const RUNS: usize = 65536;

// the lines read into the pool's buffers, and the card of the last one's term
fn card_of(
    table: &[u8],
    lines: &[u8],
    frames: &mut [u64],
    marks: &mut [u16],
    terms: &mut [u32],
    runs: &mut [u64],
    out: &mut [u8],
) -> Answer
    requires { Roomy 65536 (length frames.old) (length marks.old) (length terms.old) (length runs.old) }
    ensures { Answers (card_of_lines document_limits table.now lines.now (length out.old)) out.old out.new result }
{
    let lim = query::limits_for(Caller::Desk);
    match term_lines::read_lines(lim, lines, frames, terms, runs) {
        Ok(()) => last_card::write_last(table, terms, runs, marks, out),
        Err(Fault::Broken) => Answer::Refused(17),
        Err(Fault::Full) => Answer::Refused(13),
    }
}

// The card of the term that a listing's lines behind its first one say, at the front of `out`. The work buffers are cleared.
pub fn card_of_lines(
    table: &[u8],
    lines: &[u8],
    frames: &mut [u64],
    marks: &mut [u16],
    terms: &mut [u32],
    runs: &mut [u64],
    out: &mut [u8],
) -> Answer
    ensures { let fit = fits_lines frames.old marks.old terms.old runs.old in Cards table.now lines.now fit out.old out.new result × Cleared fit frames.old frames.new marks.old marks.new terms.old terms.new runs.old runs.new }
{
    if short(RUNS, frames.len(), marks.len(), terms.len(), runs.len()) {
        return Answer::Refused(1);
    }
    let r = card_of(table, lines, frames, marks, terms, runs, out);
    clear_all(frames, marks, terms, runs);
    r
}
