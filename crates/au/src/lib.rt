// The public merge: document 01's, which is the desk's; and for callers that lend plain buffers only.
#![tactic(auto)]

ghost use Rattle.std.specs.Prelude.{◌≡◌, length};
ghost use Rattle.spec.specs.declared.Caller.TheVariants.{Desk};
ghost use Rattle.contract.specs.Answers.{Cleared, Table};
ghost use Rattle.contract.specs.Merges.{fit_of, fits, Merges};

use contract::Answer;
use pair_search::Pair;
use query::Query;
use spec::Caller;
use two_runs::merge_query;

// The desk's question, as one value.
fn asked(left: u16, right: u16, budget: u32) -> Query
    ensures { result ≡ record { left = left; right = right; budget = budget; caller = Desk } }
{
    Query {
        left,
        right,
        budget,
        caller: Caller::Desk,
    }
}

// The merge of two classes of an image, with a budget of checks, into a listing. Refuses as the table of refusals says.
pub fn merge(
    s: &[u8],
    left: u16,
    right: u16,
    budget: u32,
    table: &mut [Pair],
    graph: &mut [u16],
    pairs: &mut [u32],
    work: &mut [u64],
    flow: &mut [u64],
    terms: &mut [u32],
    runs: &mut [u64],
    out: &mut [u8],
) -> Answer
    ensures { let fit = fits table.old graph.old pairs.old work.old flow.old terms.old runs.old in Merges Desk s.now left right budget fit out.old out.new result × Table fit table.old table.new × Cleared fit graph.old graph.new pairs.old pairs.new work.old work.new flow.old flow.new terms.old terms.new runs.old runs.new }
{
    let q = asked(left, right, budget);
    merge_query(s, q, table, graph, pairs, work, flow, terms, runs, out)
}

// The merge that a query asks for, with a pair table of its own.
pub fn merge_plain(
    s: &[u8],
    q: Query,
    graph: &mut [u16],
    pairs: &mut [u32],
    work: &mut [u64],
    flow: &mut [u64],
    terms: &mut [u32],
    runs: &mut [u64],
    out: &mut [u8],
) -> Answer
    ensures { let fit = fit_of 256 (length graph.old) (length pairs.old) (length work.old) (length flow.old) (length terms.old) (length runs.old) in Merges q.caller s.now q.left q.right q.budget fit out.old out.new result × Cleared fit graph.old graph.new pairs.old pairs.new work.old work.new flow.old flow.new terms.old terms.new runs.old runs.new }
{
    let mut table = [Pair::NONE; 256];
    merge_query(s, q, &mut table, graph, pairs, work, flow, terms, runs, out)
}
