// each branch of the merged formula belongs to its class, as theorems: see specs/
#![tactic(auto)]
