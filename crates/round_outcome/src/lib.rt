// What a round came to, and what follows it: the next one, or the run's end with its outcome.
#![tactic(auto)]

ghost use Rattle.std.specs.Prelude.{◌≡◌, ◌≤◌, length};
ghost use Rattle.round_outcome.specs.After.{reported_in, LeftOf, after_of};

use arrays::{MASS, TERM};
use budget::Budget;
use outcome::{Outcome, Ran};

// a round: whether a pair changed, with the budget left; or cut short
#[derive(Clone, Copy)]
pub enum Round {
    Finished(bool, Budget),
    Cut,
}

// after a round: the next, with the budget left; or the run's end
#[derive(Clone, Copy)]
pub enum After {
    Next(Budget),
    Ended(Ran),
}

// The first pair is the one that was asked for.
pub fn reported(pairs: &[u32], complete: bool, n: usize, rounds: u32, checks: u32) -> Outcome
    requires { 6 ≤ length pairs.now }
    ensures { result ≡ reported_in pairs.now complete n rounds checks }
{
    Outcome {
        complete,
        pairs: n,
        rounds,
        size: pairs[0],
        mass: pairs[MASS],
        root: numbers::size_u32(pairs[TERM]),
        checks,
    }
}

// "The run is complete at the first finished round without change." Of the run's budget all checks passed where it is cut short, otherwise all but those left. None: refusal 13.
pub fn after_round(x: Option<Round>, pairs: &[u32], n: usize, rounds: u32, budget: u32) -> After
    requires { (6 ≤ length pairs.now) × LeftOf budget x }
    ensures { result ≡ after_of x pairs.now n rounds budget }
{
    match x {
        None => After::Ended(Ran::Stopped(13)),
        Some(Round::Cut) => After::Ended(Ran::Done(reported(pairs, false, n, rounds, budget))),
        Some(Round::Finished(changed, left)) => {
            if changed {
                After::Next(left)
            } else {
                let checks = budget - left.left;
                After::Ended(Ran::Done(reported(pairs, true, n, rounds, checks)))
            }
        }
    }
}
