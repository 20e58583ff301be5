// "Every number zero" of the term buffers and the kept best terms.
#![tactic(auto)]

ghost use Rattle.term_clearing.specs.Cleared.{Cleared};

pub fn clear(terms: &mut [u32], runs: &mut [u64], best: &mut [u16])
    ensures { Cleared terms.old runs.old best.old terms.new runs.new best.new }
{
    terms.fill(0);
    runs.fill(0);
    best.fill(0);
}
