// what the proofs that walk a function's MIR by hand share: see specs/
#![tactic(auto)]
