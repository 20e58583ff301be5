// One transport action of a pair (exact_fixed.rs): laid out, solved, and its plan offered.
#![tactic(auto)]

ghost use Rattle.std.specs.Prelude.{◌≡◌, ◌*◌, ◌≤◌};
ghost use Rattle.query.specs.Settings.{limits_of};
ghost use Rattle.arrays.specs.Arrays.{Known, Scratch, quality_in, term_in};
ghost use Rattle.cells.specs.Cells.{sides_of, Sides, Joined};
ghost use Rattle.plan_offer.specs.Plans.{action_of};
ghost use Rattle.offers.specs.Offers.{offer_in, work_of};

use laying::plan_transport;
use plan_offer::offer_plan;
use quality::Best;
use query::Limits;

// An action over two monomials: laid out from place `pairs` of `work` on, solved and offered. The best afterwards; a better plan's runs are at the front of `work`.
pub fn offer_transport(
    lim: Limits,
    graph: &[u16],
    pairs: &[u32],
    w: usize,
    op: usize,
    left: &[u64],
    rows: usize,
    right: &[u64],
    cols: usize,
    work: &mut [u64],
    flow: &mut [u64],
    best: Best,
) -> Best
    requires { Known w graph.now pairs.now × Sides left.now rows right.now cols × Joined w (sides_of left.now rows right.now cols) × (rows * cols ≤ lim.pairs) × Scratch (limits_of lim) work.old flow.old }
    ensures { work_of work.new flow.new result
        ≡ offer_in lim.pairs (quality_in w graph.now pairs.now) (term_in w graph.now pairs.now) (action_of op (sides_of left.now rows right.now cols)) (work_of work.old flow.old best) }
{
    let at = lim.pairs;
    let count = rows * cols;
    if plan_transport(
        graph,
        pairs,
        w,
        left,
        rows,
        right,
        cols,
        &mut work[at..],
        flow,
    ) {
        return offer_plan(
            graph,
            pairs,
            w,
            op,
            left,
            rows,
            right,
            cols,
            &flow[0..count],
            work,
            best,
        );
    }
    best
}
