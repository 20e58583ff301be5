// A call's second run: where the first met a limit that is not the caller's own, once more at the caller's limits, in arrays of its own.
#![tactic(auto)]

ghost use Rattle.std.specs.Prelude.{◌≡◌, true};
ghost use Rattle.spec.specs.Run.{limits_for};
ghost use Rattle.spec.specs.declared.Caller.TheVariants.{Page, Desk};
ghost use Rattle.query.specs.Settings.{limits_of};
ghost use Rattle.contract.specs.Merges.{Merges};
ghost use Rattle.first_run.specs.First.{limited};
ghost use Rattle.second_run.specs.Twice.{Full, Settles};

use contract::Answer;
use first_run::{met_pairs, met_terms};
use merge_under::merge_under;
use pair_search::Pair;
use query::{Limits, Query};
use spec::Caller;

// Room for every run within the page's limits, and within the desk's; terms and runs are the same for both.
const PAGE_GRAPH: usize = 65792;

const PAGE_PAIRS: usize = 1536;

const PAGE_WORK: usize = 1024;

const PAGE_FLOW: usize = 256;

const DESK_GRAPH: usize = 69632;

const DESK_PAIRS: usize = 24576;

const DESK_WORK: usize = 16384;

const DESK_FLOW: usize = 4096;

const TERMS: usize = 66562;

const RUNS: usize = 65536;

// Room for every graph.
const TABLE: usize = 4096;

// The limits of the query's caller.
fn limits_of(q: Query) -> Limits
    ensures { limits_of result ≡ limits_for q.caller }
{
    let who = q.caller;
    query::limits_for(who)
}

// The merge at the caller's limits, in arrays with room for them and with a pair table of its own.
fn run_full(
    s: &[u8],
    q: Query,
    graph: &mut [u16],
    pairs: &mut [u32],
    work: &mut [u64],
    flow: &mut [u64],
    terms: &mut [u32],
    runs: &mut [u64],
    out: &mut [u8],
) -> Answer
    requires { Full q.caller graph.old pairs.old work.old flow.old terms.old runs.old }
    ensures { Merges q.caller s.now q.left q.right q.budget true out.old out.new result }
{
    let mut table = [Pair::NONE; TABLE];
    let lim = limits_of(q);
    merge_under(
        lim, s, q, &mut table, graph, pairs, work, flow, terms, runs, out,
    )
}

// The page's second run.
fn run_page(s: &[u8], q: Query, out: &mut [u8]) -> Answer
    requires { q.caller ≡ Page }
    ensures { Merges q.caller s.now q.left q.right q.budget true out.old out.new result }
{
    let mut graph = [0u16; PAGE_GRAPH];
    let mut pairs = [0u32; PAGE_PAIRS];
    let mut work = [0u64; PAGE_WORK];
    let mut flow = [0u64; PAGE_FLOW];
    let mut terms = [0u32; TERMS];
    let mut runs = [0u64; RUNS];
    run_full(
        s, q, &mut graph, &mut pairs, &mut work, &mut flow, &mut terms, &mut runs, out,
    )
}

// The desk's second run.
fn run_desk(s: &[u8], q: Query, out: &mut [u8]) -> Answer
    requires { q.caller ≡ Desk }
    ensures { Merges q.caller s.now q.left q.right q.budget true out.old out.new result }
{
    let mut graph = [0u16; DESK_GRAPH];
    let mut pairs = [0u32; DESK_PAIRS];
    let mut work = [0u64; DESK_WORK];
    let mut flow = [0u64; DESK_FLOW];
    let mut terms = [0u32; TERMS];
    let mut runs = [0u64; RUNS];
    run_full(
        s, q, &mut graph, &mut pairs, &mut work, &mut flow, &mut terms, &mut runs, out,
    )
}

// The second run, in arrays by the caller's limit.
fn run_again(s: &[u8], q: Query, out: &mut [u8]) -> Answer
    ensures { Merges q.caller s.now q.left q.right q.budget true out.old out.new result }
{
    let caller = q.caller;
    match caller {
        Caller::Page => run_page(s, q, out),
        Caller::Desk => run_desk(s, q, out),
    }
}

// After the first run's answer: that answer, or where it met a limit that is not the caller's own the second run's.
pub fn settle(s: &[u8], q: Query, a: Answer, out: &mut [u8]) -> Answer
    ensures { Settles (limited q.caller a) s.now q a out.old out.new result }
{
    if met_terms(a) {
        return run_again(s, q, out);
    }
    let caller = q.caller;
    if met_pairs(caller, a) {
        return run_again(s, q, out);
    }
    a
}
