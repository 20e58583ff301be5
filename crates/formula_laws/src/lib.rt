// laws about the formula text of a card: see specs/
#![tactic(auto)]
