#![tactic(auto)]

// theorems about the transport definitions: see specs/
