// A run from its graph: starting terms, then its rounds, with the budget of checks that `begin` left; and its listing (`run`, `run_in` of exact_fixed.rs).
#![tactic(auto)]

ghost use Rattle.std.specs.Prelude.{◌≡◌, ◌+◌, ◌*◌, ◌≤◌, ◌<◌, length};
ghost use Rattle.spec.specs.Image.{tables_of};
ghost use Rattle.spec.specs.Graph.{skipped_in};
ghost use Rattle.spec.specs.Run.{starting_terms, run_of};
ghost use Rattle.laws.specs.Valid.{Valid};
ghost use Rattle.query.specs.Settings.{limits_of, asked_of};
ghost use Rattle.arrays.specs.Arrays.{pairs_in};
ghost use Rattle.image.specs.Loaded.{Loaded};
ghost use Rattle.beginning.specs.Beginning.{Lengths, Ready};
ghost use Rattle.terms.specs.Buffers.{count_in, pool_of};
ghost use Rattle.terms.specs.Chains.{Holds, Rooms};
ghost use Rattle.best_terms.specs.Bests.{Kept};
ghost use Rattle.outcome.specs.Answers.{Answers};
ghost use Rattle.work_clearing.specs.Cleared.{Cleared};
ghost use Rattle.rounds.specs.Graphs.{InRange};
ghost use Rattle.exact_fixed.specs.Starting.{BeginsOne, StartsAll};
ghost use Rattle.exact_fixed.specs.Following.{Follows};

use arrays::WIDTH;
use budget::Budget;
use image::Image;
use numbers::short_size;
use outcome::{Answer, Ran};
use prepared::Begun;
use query::{Limits, Query};

// starting terms of all pairs, with the budget left; or cut short
#[derive(Clone, Copy)]
enum Started {
    All(Budget),
    Cut,
}

// the rounds follow, over so many pairs, with the budget left; or the run ends without one
#[derive(Clone, Copy)]
enum Next {
    Rounds(usize, Budget),
    Ended(Ran),
}

// ---- starting terms
// pair k's starting term and quality; None: refusal 13
fn start_one(
    lim: Limits,
    s: &[u8],
    im: Image,
    l: usize,
    r: usize,
    k: usize,
    pairs: &mut [u32],
    terms: &mut [u32],
    runs: &mut [u64],
    best: &mut [u16],
) -> Option<()>
    requires { Loaded s.now im × Valid (tables_of s.now) × (l < im.classes) × (r < im.classes) × (k < 4096) × (6 * k + 6 ≤ length pairs.old) × Holds terms.old runs.old × Rooms (limits_of lim) terms.old runs.old × (length best.old ≡ 256) × Kept (limits_of lim) (tables_of s.now) (pool_of terms.old runs.old) best.old }
    ensures { BeginsOne (limits_of lim) (tables_of s.now) (l, r) k (pool_of terms.old runs.old) pairs.old pairs.new terms.new runs.new best.new result }
{
    let t = best_terms::evaluate_generalize_action(lim, s, im, terms, runs, best, l, r)?;
    let size = starting::start_size(s, im, l, r);
    let mass = starting::start_mass(s, im, l, r);
    giving::give(pairs, WIDTH * k, size, mass, short_size(t));
    Some(())
}

// "Checks: .. one a pair in starting terms"; None: refusal 13
fn start_all(
    lim: Limits,
    s: &[u8],
    im: Image,
    graph: &[u16],
    n: usize,
    pairs: &mut [u32],
    terms: &mut [u32],
    runs: &mut [u64],
    b: Budget,
) -> Option<Started>
    requires { Loaded s.now im × Valid (tables_of s.now) × (n ≤ 4096) × (im.classes * im.classes + n ≤ length graph.now) × InRange (tables_of s.now) (pairs_in im.classes graph.now n) × (6 * n ≤ length pairs.old) × Holds terms.old runs.old × Rooms (limits_of lim) terms.old runs.old × (count_in terms.old ≤ lim.terms) }
    ensures { StartsAll (limits_of lim) (tables_of s.now) (pairs_in im.classes graph.now n) (starting_terms (limits_of lim) (tables_of s.now) (pairs_in im.classes graph.now n) b.left (pool_of terms.old runs.old)) (pool_of terms.old runs.old) pairs.new terms.new runs.new result }
{
    let mut best = [0u16; 256];
    let mut bud = b;
    for k in 0..n {
        let sp = bud.spend();
        bud = sp.budget;
        if !sp.passed {
            return Some(Started::Cut);
        }
        let l = arrays::left_at(graph, im.classes, k);
        let r = arrays::right_at(graph, im.classes, k);
        start_one(lim, s, im, l, r, k, pairs, terms, runs, &mut best)?;
    }
    Some(Started::All(bud))
}

// ---- the run
// Starting terms over a graph that is built in full; b is what `begin` answered for the query q.
fn start(
    lim: Limits,
    s: &[u8],
    im: Image,
    q: Query,
    b: Begun,
    graph: &[u16],
    pairs: &mut [u32],
    terms: &mut [u32],
    runs: &mut [u64],
) -> Next
    requires { Loaded s.now im × Valid (tables_of s.now) × (q.left < im.classes) × (q.right < im.classes) × (im.classes * im.classes + lim.pairs ≤ length graph.now) × (2 * lim.terms ≤ length graph.now) × (lim.pairs ≤ 4096) × (6 * lim.pairs ≤ length pairs.old) × Rooms (limits_of lim) terms.old runs.old × Ready (limits_of lim) (tables_of s.now) (asked_of q) q.budget im.classes b graph.now terms.old runs.old }
    ensures { Follows (limits_of lim) (tables_of s.now) (run_of (limits_of lim) (tables_of s.now) (asked_of q) q.budget) q.budget im.classes graph.now pairs.new terms.new runs.new result }
{
    match b {
        Begun::Stopped(k) => Next::Ended(Ran::Stopped(k)),
        Begun::Cut(root, j) => {
            let o = starting::report_started(s, im, q, 1, root);
            Next::Ended(Ran::Done(o))
        }
        Begun::All(root, n, c, j) => {
            match start_all(lim, s, im, graph, n, pairs, terms, runs, c) {
                Some(Started::All(d)) => Next::Rounds(n, d),
                Some(Started::Cut) => {
                    let o = starting::report_started(s, im, q, n, root);
                    Next::Ended(Ran::Done(o))
                }
                None => Next::Ended(Ran::Stopped(13)),
            }
        }
    }
}

// Starting terms, rounds and the listing; then every work buffer is cleared. b is what `begin` answered for the query q.
pub fn finish(
    lim: Limits,
    s: &[u8],
    im: Image,
    q: Query,
    b: Begun,
    graph: &mut [u16],
    pairs: &mut [u32],
    work: &mut [u64],
    flow: &mut [u64],
    terms: &mut [u32],
    runs: &mut [u64],
    out: &mut [u8],
) -> Answer
    requires { Loaded s.now im × Valid (tables_of s.now) × (q.left < im.classes) × (q.right < im.classes) × Lengths (limits_of lim) im.classes graph.old pairs.old work.old flow.old terms.old runs.old × Ready (limits_of lim) (tables_of s.now) (asked_of q) q.budget im.classes b graph.old terms.old runs.old }
    ensures { Answers (skipped_in (limits_of lim) (tables_of s.now) (asked_of q) q.budget) (run_of (limits_of lim) (tables_of s.now) (asked_of q) q.budget) out.old out.new result
        × Cleared graph.old pairs.old work.old flow.old terms.old runs.old graph.new pairs.new work.new flow.new terms.new runs.new }
{
    let k = prepared::skipped_of(b);
    let x = start(lim, s, im, q, b, graph, pairs, terms, runs);
    match x {
        Next::Ended(y) => outcome::conclude(y, k, graph, pairs, work, flow, terms, runs, out),
        Next::Rounds(n, c) => rounds::run_rounds(
            lim, s, im, n, graph, pairs, work, flow, terms, runs, out, c, q.budget, k,
        ),
    }
}
