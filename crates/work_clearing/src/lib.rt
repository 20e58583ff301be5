// The work buffers of a run cleared, all six.
#![tactic(auto)]

ghost use Rattle.work_clearing.specs.Cleared.{Cleared};

// "every number zero"
pub fn clear_all(
    graph: &mut [u16],
    pairs: &mut [u32],
    work: &mut [u64],
    flow: &mut [u64],
    terms: &mut [u32],
    runs: &mut [u64],
)
    ensures { Cleared graph.old pairs.old work.old flow.old terms.old runs.old graph.new pairs.new work.new flow.new terms.new runs.new }
{
    graph.fill(0);
    pairs.fill(0);
    work.fill(0);
    flow.fill(0);
    terms.fill(0);
    runs.fill(0);
}
