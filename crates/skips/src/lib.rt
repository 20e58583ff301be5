#![tactic(auto)]

// Mathematics of the pairs that are passed over (02, Paper 7): specs/.
