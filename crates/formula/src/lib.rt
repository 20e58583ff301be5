// formula text for the driver's card (02, Paper 1): see specs/
#![tactic(auto)]
