// What program `merge` writes for an input: the listing, or `refused` and its number.
#![tactic(auto)]

ghost use Rattle.std.specs.Prelude.{◌≡◌, true, length};
ghost use Rattle.frames.specs.Frame.{framed};
ghost use Rattle.answer.specs.Responding.{Asks, Rooms, Responds};
ghost use Rattle.contract.specs.Merges.{fit_of};
ghost use Rattle.contract.specs.Answers.{Cleared};

use au::merge_plain;
use contract::Answer;
use frames::{image_length, is_framed, print, query_of, refusal};
use work_clearing::clear_all;

// the merge that a framed input asks for
fn ask(
    input: &[u8],
    graph: &mut [u16],
    pairs: &mut [u32],
    work: &mut [u64],
    flow: &mut [u64],
    terms: &mut [u32],
    runs: &mut [u64],
    out: &mut [u8],
) -> Answer
    requires { framed input.now ≡ true }
    ensures { let fit = fit_of 256 (length graph.old) (length pairs.old) (length work.old) (length flow.old) (length terms.old) (length runs.old) in Asks input.now fit out.old out.new result × Cleared fit graph.old graph.new pairs.old pairs.new work.old work.new flow.old flow.new terms.old terms.new runs.old runs.new }
{
    let n = image_length(input);
    let q = query_of(input);
    merge_plain(&input[0..n], q, graph, pairs, work, flow, terms, runs, out)
}

// The bytes that program `merge` writes for this input, at the front of `out`, and how many there are. The work buffers are cleared.
pub fn respond(
    input: &[u8],
    graph: &mut [u16],
    pairs: &mut [u32],
    work: &mut [u64],
    flow: &mut [u64],
    terms: &mut [u32],
    runs: &mut [u64],
    out: &mut [u8],
) -> usize
    requires { Rooms graph.old pairs.old work.old flow.old terms.old runs.old out.old }
    ensures { Responds input.now out.old out.new result × Cleared true graph.old graph.new pairs.old pairs.new work.old work.new flow.old flow.new terms.old terms.new runs.old runs.new }
{
    if is_framed(input) {
        let a = ask(input, graph, pairs, work, flow, terms, runs, out);
        return print(out, a);
    }
    clear_all(graph, pairs, work, flow, terms, runs);
    refusal(out, 2)
}
