// A call's first run: its limits, and whether it met one that is not the caller's own.
#![tactic(auto)]

ghost use Rattle.std.specs.Prelude.{◌≡◌};
ghost use Rattle.query.specs.Settings.{limits_of};
ghost use Rattle.first_run.specs.First.{small_limits, over_terms, over_pairs};

use contract::Answer;
use query::Limits;
use spec::Caller;

// The limits of the first run.
pub fn small() -> Limits
    ensures { limits_of result ≡ small_limits }
{
    Limits {
        pairs: 256,
        terms: 512,
        runs: 1024,
    }
}

// Whether a limit was met that is neither caller's own: terms, runs, or the room for the image's classes.
pub fn met_terms(a: Answer) -> bool
    ensures { result ≡ over_terms a }
{
    matches!(a, Answer::Refused(13))
}

// Whether the limit of pairs was met, and is not the caller's own.
pub fn met_pairs(caller: Caller, a: Answer) -> bool
    ensures { result ≡ over_pairs caller a }
{
    match caller {
        Caller::Page => false,
        Caller::Desk => matches!(a, Answer::Refused(12)),
    }
}
