// how many distinct terms a run makes, as theorems: see specs/
#![tactic(auto)]
