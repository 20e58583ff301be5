// A call: refusal 1, the first run at small limits in the lent buffers, and where a limit was met that is not the caller's own the second.
#![tactic(auto)]

ghost use Rattle.std.specs.Prelude.{◌≡◌, not};
ghost use Rattle.contract.specs.Answers.{Cleared, Table};
ghost use Rattle.contract.specs.Merges.{fit_of, fits, Merges};

use contract::Answer;
use first_run::small;
use merge_under::merge_under;
use pair_search::Pair;
use query::Query;
use second_run::settle;

// The constant lengths of the work buffers (docs/BUFFERS.md), the same for both callers: room for the first run.
const TABLE: usize = 256;

const GRAPH: usize = 4352;

const PAIRS: usize = 1536;

const WORK: usize = 1024;

const FLOW: usize = 256;

const TERMS: usize = 3074;

const RUNS: usize = 1024;

// 1: whether a work buffer is below its constant length
fn short(
    table: usize,
    graph: usize,
    pairs: usize,
    work: usize,
    flow: usize,
    terms: usize,
    runs: usize,
) -> bool
    ensures { result ≡ not (fit_of table graph pairs work flow terms runs) }
{
    table < TABLE
        || graph < GRAPH
        || pairs < PAIRS
        || work < WORK
        || flow < FLOW
        || terms < TERMS
        || runs < RUNS
}

// The merge that a query asks for, with its caller's limit of pairs, into a listing. Refuses as the table of refusals says.
pub fn merge_query(
    s: &[u8],
    q: Query,
    table: &mut [Pair],
    graph: &mut [u16],
    pairs: &mut [u32],
    work: &mut [u64],
    flow: &mut [u64],
    terms: &mut [u32],
    runs: &mut [u64],
    out: &mut [u8],
) -> Answer
    ensures { let fit = fits table.old graph.old pairs.old work.old flow.old terms.old runs.old in Merges q.caller s.now q.left q.right q.budget fit out.old out.new result × Table fit table.old table.new × Cleared fit graph.old graph.new pairs.old pairs.new work.old work.new flow.old flow.new terms.old terms.new runs.old runs.new }
{
    if short(
        table.len(),
        graph.len(),
        pairs.len(),
        work.len(),
        flow.len(),
        terms.len(),
        runs.len(),
    ) {
        return Answer::Refused(1);
    }
    let lim = small();
    let a = merge_under(lim, s, q, table, graph, pairs, work, flow, terms, runs, out);
    settle(s, q, a, out)
}
