// What a call is asked and how much it may enter: settings that travel by value.
#![tactic(auto)]

ghost use Rattle.std.specs.Prelude.{◌≡◌};
ghost use Rattle.spec.specs.Run.{limit_of, limits_for};
ghost use Rattle.query.specs.Settings.{limits_of};

use spec::Caller;

// The queried pair of classes, the budget of checks, and who asks.
#[derive(Clone, Copy)]
pub struct Query {
    pub left: u16,
    pub right: u16,
    pub budget: u32,
    pub caller: Caller,
}

// How many pairs, terms and runs a run may enter.
#[derive(Clone, Copy)]
pub struct Limits {
    pub pairs: usize,
    pub terms: usize,
    pub runs: usize,
}

// "The public quote page .. may hold 256 pairs, while the account desk keeps 4,096" (02, Paper 9)
pub fn limit_of(caller: Caller) -> usize
    ensures { result ≡ limit_of caller }
{
    match caller {
        Caller::Page => 256,
        Caller::Desk => 4096,
    }
}

// The caller's own limit of pairs; "a term beyond 16,384 or a run beyond 65,536"
pub fn limits_for(caller: Caller) -> Limits
    ensures { limits_of result ≡ limits_for caller }
{
    Limits {
        pairs: limit_of(caller),
        terms: 16384,
        runs: 65536,
    }
}
