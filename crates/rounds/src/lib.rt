// Rounds over the pairs of a graph, with the budget that starting terms left, and their listing (`run_in` of exact_fixed.rs).
#![tactic(auto)]

ghost use Rattle.std.specs.Prelude.{◌≡◌, ◌*◌, ◌≤◌, length};
ghost use Rattle.spec.specs.Image.{tables_of};
ghost use Rattle.laws.specs.Valid.{Valid};
ghost use Rattle.image.specs.Loaded.{Loaded};
ghost use Rattle.lgg.specs.Pairs.{round_at, rounds_of};
ghost use Rattle.steps.specs.Standing.{Standing};
ghost use Rattle.lgg.specs.Stands.{Fits};
ghost use Rattle.query.specs.Settings.{limits_of};
ghost use Rattle.arrays.specs.Arrays.{pairs_in, qualities_in, Scratch};
ghost use Rattle.terms.specs.Buffers.{count_in};
ghost use Rattle.terms.specs.Chains.{Holds, Rooms};
ghost use Rattle.outcome.specs.Answers.{Answers};
ghost use Rattle.work_clearing.specs.Cleared.{Cleared};
ghost use Rattle.outcome.specs.Outcomes.{RanTo};
ghost use Rattle.settling.specs.Quiet.{Quiet};
ghost use Rattle.rounds.specs.Graphs.{state_in, Graphs};
ghost use Rattle.rounds.specs.Idling.{Idles};
ghost use Rattle.rounds.specs.Turning.{Relaxes};

use budget::Budget;
use image::Image;
use outcome::{Answer, Ran};
use query::Limits;
use round_outcome::{After, Round};

// ---- a round
// A round over the pairs: "one [check] a pair in it". Pairs that are not live keep what they have, and the round gives them that already. None: refusal 13.
fn relax_all(
    lim: Limits,
    s: &[u8],
    im: Image,
    n: usize,
    graph: &[u16],
    llive: &[u8; 256],
    rlive: &[u8; 256],
    pairs: &mut [u32],
    work: &mut [u64],
    flow: &mut [u64],
    terms: &mut [u32],
    runs: &mut [u64],
    b: Budget,
) -> Option<Round>
    requires { Loaded s.now im × Valid (tables_of s.now) × Graphs (limits_of lim) (tables_of s.now) im.classes (pairs_in im.classes graph.now n) n graph.now × (6 * n ≤ length pairs.old) × Scratch (limits_of lim) work.old flow.old × Holds terms.old runs.old × Rooms (limits_of lim) terms.old runs.old × (count_in terms.old ≤ lim.terms) × Standing Fits (pairs_in im.classes graph.now n) (state_in pairs.old terms.old runs.old n 0 0 0)
        × Quiet (tables_of s.now) (pairs_in im.classes graph.now n) (qualities_in pairs.old 0 n) llive.now rlive.now
        × Idles (pairs_in im.classes graph.now n) pairs.old llive.now rlive.now 0 }
    ensures { Relaxes (limits_of lim) (tables_of s.now) (pairs_in im.classes graph.now n) (state_in pairs.old terms.old runs.old n 0 0 0) (round_at (limits_of lim) (tables_of s.now) (pairs_in im.classes graph.now n) (state_in pairs.old terms.old runs.old n 0 0 0) b.left) pairs.new terms.new runs.new result }
{
    let w = im.classes;
    let mut changed = false;
    let mut bud = b;
    let mut k = 0;
    // no range: k goes on over pairs that are not live
    while k < n {
        let j = live_pairs::next_live(graph, w, n, k, llive, rlive);
        let sp = bud.spend_many(live_pairs::due(k, j));
        bud = sp.budget;
        if !sp.passed {
            return Some(Round::Cut);
        }
        if k < j {
            k = j;
        } else {
            let l = arrays::left_at(graph, w, k);
            let r = arrays::right_at(graph, w, k);
            let c = visits::visit(lim, s, im, graph, l, r, k, pairs, work, flow, terms, runs)?;
            changed |= c;
            k += 1;
        }
    }
    Some(Round::Finished(changed, bud))
}

// ---- the rounds
// "The rounds reported are the finished ones that changed a quality." `budget` is the run's, of which b is left.
fn relax(
    lim: Limits,
    s: &[u8],
    im: Image,
    n: usize,
    graph: &[u16],
    pairs: &mut [u32],
    work: &mut [u64],
    flow: &mut [u64],
    terms: &mut [u32],
    runs: &mut [u64],
    b: Budget,
    budget: u32,
) -> Ran
    requires { Loaded s.now im × Valid (tables_of s.now) × Graphs (limits_of lim) (tables_of s.now) im.classes (pairs_in im.classes graph.now n) n graph.now × (6 * lim.pairs ≤ length pairs.old) × (2 * lim.terms ≤ length graph.now) × Scratch (limits_of lim) work.old flow.old × Holds terms.old runs.old × Rooms (limits_of lim) terms.old runs.old × (count_in terms.old ≤ lim.terms) × Standing Fits (pairs_in im.classes graph.now n) (state_in pairs.old terms.old runs.old n 0 b.left budget) × (b.left ≤ budget) }
    ensures { RanTo (rounds_of (limits_of lim) (tables_of s.now) (pairs_in im.classes graph.now n) (state_in pairs.old terms.old runs.old n 0 b.left budget)) graph.now terms.new runs.new result }
{
    let mut llive = [1u8; 256];
    let mut rlive = [1u8; 256];
    let mut rounds = 0u32;
    let mut bud = b;
    // no range: round after round until the run ends
    loop {
        let sp = bud.spend();
        let rest = sp.budget;
        if !sp.passed {
            return Ran::Done(round_outcome::reported(pairs, false, n, rounds, budget));
        }
        let x = relax_all(
            lim, s, im, n, graph, &llive, &rlive, pairs, work, flow, terms, runs, rest,
        );
        let y = round_outcome::after_round(x, pairs, n, rounds, budget);
        match y {
            After::Ended(z) => {
                return z;
            }
            After::Next(left) => {
                settling::end_round(s, im, graph, n, pairs, &mut llive, &mut rlive);
                bud = left;
                rounds += 1;
            }
        }
    }
}

// The rounds over a built graph of n pairs, each with its starting term, with b left of the run's budget; then the answer, which lists the number of monomial pairs passed over, and every work buffer cleared.
pub fn run_rounds(
    lim: Limits,
    s: &[u8],
    im: Image,
    n: usize,
    graph: &mut [u16],
    pairs: &mut [u32],
    work: &mut [u64],
    flow: &mut [u64],
    terms: &mut [u32],
    runs: &mut [u64],
    out: &mut [u8],
    b: Budget,
    budget: u32,
    skipped: u64,
) -> Answer
    requires { Loaded s.now im × Valid (tables_of s.now) × Graphs (limits_of lim) (tables_of s.now) im.classes (pairs_in im.classes graph.old n) n graph.old × (6 * lim.pairs ≤ length pairs.old) × (2 * lim.terms ≤ length graph.old) × Scratch (limits_of lim) work.old flow.old × Holds terms.old runs.old × Rooms (limits_of lim) terms.old runs.old × (count_in terms.old ≤ lim.terms) × Standing Fits (pairs_in im.classes graph.old n) (state_in pairs.old terms.old runs.old n 0 b.left budget) × (b.left ≤ budget) }
    ensures { Answers skipped (rounds_of (limits_of lim) (tables_of s.now) (pairs_in im.classes graph.old n) (state_in pairs.old terms.old runs.old n 0 b.left budget)) out.old out.new result
        × Cleared graph.old pairs.old work.old flow.old terms.old runs.old graph.new pairs.new work.new flow.new terms.new runs.new }
{
    let x = relax(
        lim, s, im, n, graph, pairs, work, flow, terms, runs, b, budget,
    );
    outcome::conclude(x, skipped, graph, pairs, work, flow, terms, runs, out)
}
