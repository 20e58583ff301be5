// pools of terms, and the order of terms: see specs/
#![tactic(auto)]
