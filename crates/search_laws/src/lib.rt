// what a search and its path are on plain lists, and laws about them: see specs/
#![tactic(auto)]
