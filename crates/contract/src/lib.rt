// What a call of the merge answers; its contract is said in specs/.
#![tactic(auto)]

// How many bytes of output; a refusal's number; refusal 10 with the lowest class that holds a literal that also stands in another.
#[derive(Clone, Copy)]
pub enum Answer {
    Listing(usize),
    Refused(u8),
    Doubled(usize),
}
