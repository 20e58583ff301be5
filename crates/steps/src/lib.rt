// graph and rounds over nodes of any kind, as theorems: see specs/
#![tactic(auto)]
