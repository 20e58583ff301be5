// the mathematics of the merge: see specs/
#![tactic(auto)]
