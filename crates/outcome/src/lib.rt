// The end of a run: what it came to, its listing or its refusal, and the work buffers cleared.
#![tactic(auto)]

ghost use Rattle.std.specs.Prelude.{◌*◌, ◌≤◌, ◌<◌, length};
ghost use Rattle.spec.specs.Bytes.{ok};
ghost use Rattle.terms.specs.Buffers.{count_in};
ghost use Rattle.terms.specs.Chains.{Holds};
ghost use Rattle.outcome.specs.Answers.{outcome_in, ran_in, Listable, Answers};
ghost use Rattle.work_clearing.specs.Cleared.{Cleared};

use first_line::Report;
use numbers::{long_size, long_u32};
use work_clearing::clear_all;

// what a run reports; root is its term's number
#[derive(Clone, Copy)]
pub struct Outcome {
    pub complete: bool,
    pub pairs: usize,
    pub rounds: u32,
    pub size: u32,
    pub mass: u32,
    pub root: usize,
    pub checks: u32,
}

// an outcome; or a refusal
#[derive(Clone, Copy)]
pub enum Ran {
    Done(Outcome),
    Stopped(u8),
}

// the listing's length; or a refusal
#[derive(Clone, Copy)]
pub enum Answer {
    Listing(usize),
    Refused(u8),
}

// the listing of an outcome whose pool the buffers hold, with the number of monomial pairs passed over; marks has two numbers a term
fn list_outcome(
    o: Outcome,
    skipped: u64,
    terms: &[u32],
    runs: &[u64],
    marks: &mut [u16],
    out: &mut [u8],
) -> Answer
    requires { Holds terms.now runs.now × (o.root < count_in terms.now) × (2 * count_in terms.now ≤ length marks.old) }
    ensures { Answers skipped (ok (outcome_in o terms.now runs.now)) out.old out.new result }
{
    let f = Report {
        complete: o.complete,
        pairs: long_size(o.pairs),
        rounds: long_u32(o.rounds),
        size: long_u32(o.size),
        mass: long_u32(o.mass),
        skipped,
        checks: long_u32(o.checks),
    };
    let root = o.root;
    let w = listing::list(terms, runs, marks, out, root, f);
    match w {
        Some(n) => Answer::Listing(n),
        None => Answer::Refused(14),
    }
}

// the listing or the refusal of a run
fn list_ran(
    x: Ran,
    skipped: u64,
    terms: &[u32],
    runs: &[u64],
    marks: &mut [u16],
    out: &mut [u8],
) -> Answer
    requires { Listable x marks.old terms.now runs.now }
    ensures { Answers skipped (ran_in x terms.now runs.now) out.old out.new result }
{
    match x {
        Ran::Stopped(k) => Answer::Refused(k),
        Ran::Done(o) => list_outcome(o, skipped, terms, runs, marks, out),
    }
}

// The listing of what a run came to, or its refusal; then every work buffer is cleared. `graph` serves as the listing's marks.
pub fn conclude(
    x: Ran,
    skipped: u64,
    graph: &mut [u16],
    pairs: &mut [u32],
    work: &mut [u64],
    flow: &mut [u64],
    terms: &mut [u32],
    runs: &mut [u64],
    out: &mut [u8],
) -> Answer
    requires { Listable x graph.old terms.old runs.old }
    ensures { Answers skipped (ran_in x terms.old runs.old) out.old out.new result
        × Cleared graph.old pairs.old work.old flow.old terms.old runs.old graph.new pairs.new work.new flow.new terms.new runs.new }
{
    let r = list_ran(x, skipped, terms, runs, graph, out);
    clear_all(graph, pairs, work, flow, terms, runs);
    r
}
