// What program `read_card` writes for an input: the lines of the term's listing, or `refused` and its number.
#![tactic(auto)]

ghost use Rattle.std.specs.Prelude.{◌≡◌, true, ◌≤◌, length};
ghost use Rattle.formula.specs.Programs.{tabled};
ghost use Rattle.card_contract.specs.Calls.{Cleared};
ghost use Rattle.read_answer.specs.Reading.{Lent, Asks, Prints, Responds};

use card_buffers::clear_all;
use card_contract::Answer;
use card_to_lines::lines_of_card;
use frames::refusal;
use table_frames::{is_tabled, table_end, text_length};

// the lines that an input with a table asks for
fn ask(
    input: &[u8],
    frames: &mut [u64],
    marks: &mut [u16],
    terms: &mut [u32],
    runs: &mut [u64],
    out: &mut [u8],
) -> Answer
    requires { (tabled input.now ≡ true) × Lent frames.old marks.old terms.old runs.old }
    ensures { Asks input.now out.old out.new result × Cleared true frames.old frames.new marks.old marks.new terms.old terms.new runs.old runs.new }
{
    let e = table_end(input);
    let n = text_length(&input[e..]);
    lines_of_card(
        &input[4..e],
        &input[e..e + n],
        frames,
        marks,
        terms,
        runs,
        out,
    )
}

// The answer's bytes, at the output buffer's front: lines stand there already.
fn print(out: &mut [u8], a: Answer) -> usize
    requires { 29 ≤ length out.old }
    ensures { Prints out.old out.new a result }
{
    match a {
        Answer::Text(n) => n,
        Answer::Refused(k) => refusal(out, k),
    }
}

// The bytes that program `read_card` writes for this input, at the front of `out`, and how many there are. The work buffers are cleared.
pub fn respond(
    input: &[u8],
    frames: &mut [u64],
    marks: &mut [u16],
    terms: &mut [u32],
    runs: &mut [u64],
    out: &mut [u8],
) -> usize
    requires { Lent frames.old marks.old terms.old runs.old × (length out.old ≡ 65536) }
    ensures { Responds input.now out.old out.new result × Cleared true frames.old frames.new marks.old marks.new terms.old terms.new runs.old runs.new }
{
    if is_tabled(input) {
        let a = ask(input, frames, marks, terms, runs, out);
        return print(out, a);
    }
    clear_all(frames, marks, terms, runs);
    refusal(out, 2)
}
