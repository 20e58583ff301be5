// What program `card` writes for an input: the merged formula's card and a line feed, or `refused` and its number. The merge's listing is read line by line, and the card of its term is written.
#![tactic(auto)]

ghost use Rattle.std.specs.Prelude.{◌≡◌, true, ◌≤◌, length, drop};
ghost use Rattle.frames.specs.Frame.{framed};
ghost use Rattle.contract.specs.Answers.{Cleared};
ghost use Rattle.card_contract.specs.declared.Answer.TheVariants.{Refused};
ghost use Rattle.formula.specs.Programs.{behind_first};
ghost use Rattle.card_answer.specs.Carding.{Staged, Lent, merged_as, ReadsBehind, LoadsMerge, Short, AnswersCard, Feeds, Responds};

use au::merge_plain;
use card_contract::Answer;
use frames::{image_length, is_framed, query_of, refusal};
use spec::Caller;
use table_frames::{is_tabled, table_end};
use term_lines::Fault;
use work_clearing::clear_all;

// A listing that is longer is refused by 14 (docs/DECISIONS.md 53).
const LISTING: usize = 400000;

// the longest card
const CARD: usize = 65536;

// the place behind the first line
fn first_end(s: &[u8]) -> usize
    ensures { (result ≤ length s.now) × (drop result s.now ≡ behind_first s.now) }
{
    for i in 0..s.len() {
        if s[i] == b'\n' {
            return i + 1;
        }
    }
    s.len()
}

// what was read of lines, with the refusal's number
fn merged_of(x: Result<(), Fault>) -> Result<(), u8>
    ensures { result ≡ merged_as x }
{
    match x {
        Ok(()) => Ok(()),
        Err(Fault::Broken) => Err(17),
        Err(Fault::Full) => Err(13),
    }
}

// the lines behind a listing's first one, into the pool's buffers: the formula's terms, the last one is the formula; or a refusal's number
fn read_behind(
    listing: &[u8],
    list: &mut [u64],
    terms: &mut [u32],
    runs: &mut [u64],
) -> Result<(), u8>
    requires { Staged list.old terms.old runs.old }
    ensures { ReadsBehind listing.now terms.new runs.new result }
{
    let at = first_end(listing);
    let lim = query::limits_for(Caller::Desk);
    let x = term_lines::read_lines(lim, &listing[at..], list, terms, runs);
    merged_of(x)
}

// The merge that a framed input asks for, and the lines of its listing in the pool's buffers.
fn load(
    input: &[u8],
    graph: &mut [u16],
    pairs: &mut [u32],
    work: &mut [u64],
    flow: &mut [u64],
    terms: &mut [u32],
    runs: &mut [u64],
) -> Result<(), u8>
    requires { (framed input.now ≡ true) × Lent graph.old pairs.old work.old flow.old terms.old runs.old }
    ensures { LoadsMerge input.now terms.new runs.new result }
{
    let mut listing = [0u8; LISTING];
    let n = image_length(input);
    let q = query_of(input);
    let a = merge_plain(
        &input[0..n],
        q,
        graph,
        pairs,
        work,
        flow,
        terms,
        runs,
        &mut listing,
    );
    match a {
        contract::Answer::Listing(m) => read_behind(&listing[0..m], work, terms, runs),
        contract::Answer::Refused(k) => Err(k),
        contract::Answer::Doubled(c) => Err(10),
    }
}

fn refuse(k: u8) -> Answer
    ensures { result ≡ Refused k }
{
    Answer::Refused(k)
}

// The card that an input asks for, at the output's front.
fn answer_to(
    input: &[u8],
    graph: &mut [u16],
    pairs: &mut [u32],
    work: &mut [u64],
    flow: &mut [u64],
    terms: &mut [u32],
    runs: &mut [u64],
    out: &mut [u8],
) -> Answer
    requires { Lent graph.old pairs.old work.old flow.old terms.old runs.old × (length out.old ≡ 65537) }
    ensures { AnswersCard input.now out.old out.new result }
{
    if !is_tabled(input) {
        return refuse(2);
    }
    let e = table_end(input);
    if !is_framed(&input[e..]) {
        return refuse(2);
    }
    match load(&input[e..], graph, pairs, work, flow, terms, runs) {
        Ok(()) => last_card::write_last(&input[4..e], terms, runs, graph, &mut out[0..CARD]),
        Err(k) => refuse(k),
    }
}

// The answer's bytes: a card's line feed, or a refusal's line.
fn feed(out: &mut [u8], a: Answer) -> usize
    requires { (length out.old ≡ 65537) × Short a }
    ensures { Feeds out.old out.new a result }
{
    match a {
        Answer::Text(n) => {
            out[n] = 10;
            n + 1
        }
        Answer::Refused(k) => refusal(out, k),
    }
}

// The bytes that program `card` writes for this input, at the front of `out`, and how many there are. The work buffers are cleared.
pub fn respond(
    input: &[u8],
    graph: &mut [u16],
    pairs: &mut [u32],
    work: &mut [u64],
    flow: &mut [u64],
    terms: &mut [u32],
    runs: &mut [u64],
    out: &mut [u8],
) -> usize
    requires { Lent graph.old pairs.old work.old flow.old terms.old runs.old × (length out.old ≡ 65537) }
    ensures { Responds input.now out.old out.new result × Cleared true graph.old graph.new pairs.old pairs.new work.old work.new flow.old flow.new terms.old terms.new runs.old runs.new }
{
    let a = answer_to(input, graph, pairs, work, flow, terms, runs, out);
    clear_all(graph, pairs, work, flow, terms, runs);
    feed(out, a)
}
