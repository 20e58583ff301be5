// the lines of our own listings, read back: see specs/
#![tactic(auto)]
