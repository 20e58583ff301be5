// Paper 1's sentences, as theorems about calls: see specs/
#![tactic(auto)]
