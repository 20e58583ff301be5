// What a call about a card answers.
#![tactic(auto)]

// so many bytes at the front of the output buffer; or a refusal
#[derive(Clone, Copy)]
pub enum Answer {
    Text(usize),
    Refused(u8),
}
