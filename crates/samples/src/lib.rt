// definitions against answers of the listed Rust: see specs/
#![tactic(auto)]
