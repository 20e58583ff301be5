// laws about the definitions: see specs/
#![tactic(auto)]
