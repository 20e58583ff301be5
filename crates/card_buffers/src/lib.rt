// The work buffers of the calls about cards: whether one is too short, and all cleared.
#![tactic(auto)]

ghost use Rattle.std.specs.Prelude.{◌≡◌, not, true};
ghost use Rattle.card_contract.specs.Calls.{fit_of, Cleared};

// The constant lengths (docs/BUFFERS.md).
const MARKS: usize = 32768;

const TERMS: usize = 66562;

const RUNS: usize = 65536;

// 1: whether a work buffer is below its length; `frames` has at least so many numbers as the call says
pub fn short(least: usize, frames: usize, marks: usize, terms: usize, runs: usize) -> bool
    ensures { result ≡ not (fit_of least frames marks terms runs) }
{
    frames < least || marks < MARKS || terms < TERMS || runs < RUNS
}

// "every number zero"
pub fn clear_all(frames: &mut [u64], marks: &mut [u16], terms: &mut [u32], runs: &mut [u64])
    ensures { Cleared true frames.old frames.new marks.old marks.new terms.old terms.new runs.old runs.new }
{
    frames.fill(0);
    marks.fill(0);
    terms.fill(0);
    runs.fill(0);
}
