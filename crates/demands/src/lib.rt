// the customer's demands, as theorems about the contract of merge: see specs/
#![tactic(auto)]
