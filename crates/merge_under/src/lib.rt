// The merge at given limits, in buffers with room for them: "the pair table is a lent slice of records", a thin layer above an engine on plain arrays.
#![tactic(auto)]

ghost use Rattle.std.specs.Prelude.{◌≡◌, true, ◌≤◌, length};
ghost use Rattle.query.specs.Settings.{limits_of};
ghost use Rattle.prepared.specs.Pairs.{pairs_of};
ghost use Rattle.contract.specs.Answers.{Cleared, Table};
ghost use Rattle.merge_under.specs.Under.{Roomy, MergesUnder};
ghost use Rattle.merge_under.specs.Engine.{Stands, answer_as};

use contract::Answer;
use pair_count::Count;
use pair_search::Pair;
use prepared::Prepared;
use query::{Limits, Query};

// What the engine answers.
fn answer_of(a: outcome::Answer) -> Answer
    ensures { result ≡ answer_as a }
{
    match a {
        outcome::Answer::Listing(n) => Answer::Listing(n),
        outcome::Answer::Refused(k) => Answer::Refused(k),
    }
}

// Starting terms, rounds over as many pairs as the table counts, and the listing; the plain work buffers are cleared.
fn finish(
    lim: Limits,
    s: &[u8],
    q: Query,
    p: Prepared,
    c: Count,
    graph: &mut [u16],
    pairs: &mut [u32],
    work: &mut [u64],
    flow: &mut [u64],
    terms: &mut [u32],
    runs: &mut [u64],
    out: &mut [u8],
) -> Answer
    requires { Stands (limits_of lim) s.now q p graph.old terms.old runs.old × Roomy (limits_of lim) graph.old pairs.old work.old flow.old terms.old runs.old × (c.pairs ≡ pairs_of p) }
    ensures { MergesUnder (limits_of lim) (length graph.old) s.now q out.old out.new result × Cleared true graph.old graph.new pairs.old pairs.new work.old work.new flow.old flow.new terms.old terms.new runs.old runs.new }
{
    match p {
        Prepared::Refused(k) => {
            work_clearing::clear_all(graph, pairs, work, flow, terms, runs);
            Answer::Refused(k)
        }
        Prepared::Doubled(d) => {
            work_clearing::clear_all(graph, pairs, work, flow, terms, runs);
            Answer::Doubled(d)
        }
        Prepared::Go(im, b) => answer_of(exact_fixed::finish(
            lim,
            s,
            im,
            q,
            prepared::counted(b, c),
            graph,
            pairs,
            work,
            flow,
            terms,
            runs,
            out,
        )),
    }
}

// The merge of two classes of an image, with a budget of checks, into a listing. The work buffers are cleared.
// The pair table is the records' layer: it looks up or enters the pairs that the engine numbers in a plain array, and its count is the number of pairs that the rounds run over.
pub fn merge_under(
    lim: Limits,
    s: &[u8],
    q: Query,
    table: &mut [Pair],
    graph: &mut [u16],
    pairs: &mut [u32],
    work: &mut [u64],
    flow: &mut [u64],
    terms: &mut [u32],
    runs: &mut [u64],
    out: &mut [u8],
) -> Answer
    requires { (lim.pairs ≤ 4096) × (lim.pairs ≤ length table.old) × Roomy (limits_of lim) graph.old pairs.old work.old flow.old terms.old runs.old }
    ensures { MergesUnder (limits_of lim) (length graph.old) s.now q out.old out.new result × Table true table.old table.new × Cleared true graph.old graph.new pairs.old pairs.new work.old work.new flow.old flow.new terms.old terms.new runs.old runs.new }
{
    let p = prepare::prepare(lim, s, q, graph, terms, runs);
    let from = prepared::keys_of(p);
    let n = prepared::pairs_of(p);
    let c = pair_count::enter_graph(table, graph, from, n, q.left, q.right);
    let a = finish(lim, s, q, p, c, graph, pairs, work, flow, terms, runs, out);
    pair_table::clear_table(table);
    a
}
