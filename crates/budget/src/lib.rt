// "A budget of checks, a state passed by value whose one operation spends a check": `expired` of exact_fixed.rs; and that operation many times.
#![tactic(auto)]

ghost use Rattle.std.specs.Prelude.{◌≡◌};
ghost use Rattle.budget.specs.Budget.{spend_of, spend_many_of};

// The checks that still pass.
#[derive(Clone, Copy)]
pub struct Budget {
    pub left: u32,
}

// The new state, and whether the check passed; of many checks, whether all did.
#[derive(Clone, Copy)]
pub struct Spent {
    pub budget: Budget,
    pub passed: bool,
}

impl Budget {
    // m checks, one after the other.
    pub fn spend_many(self, m: usize) -> Spent
        ensures { result ≡ spend_many_of m self }
    {
        let left = numbers::size_u32(self.left);
        if left < m {
            return Spent {
                budget: Budget { left: 0 },
                passed: false,
            };
        }
        Spent {
            budget: Budget {
                left: numbers::short_size(left - m),
            },
            passed: true,
        }
    }

    pub fn spend(self) -> Spent
        ensures { result ≡ spend_of self }
    {
        self.spend_many(1)
    }
}
