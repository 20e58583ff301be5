// the two fleets in either order, as theorems: see specs/
#![tactic(auto)]
