// The answers of the public calls, so that the definitions in specs/ can name them.
// What the numbers and values of document 01 are in each case stands in specs/Answer.antt.
#![tactic(auto)]

// Why a call is refused, and at which word.
pub mod refusal;

use crate::refusal::Refusal;

// Menu: the number of enabled bindings, N, and the tries of the transition's plan, W.
#[derive(Clone, Copy, Debug, PartialEq, Eq)]
pub struct Listed {
    pub bindings: u32,
    pub tries: u32,
}

// Run: picks done, the refusal that ended it, and the marking's length in words.
#[derive(Clone, Copy, Debug, PartialEq, Eq)]
pub struct Outcome {
    pub done: usize,
    pub stopped: Option<Refusal>,
    pub length: usize,
}
