// What the calls on a transition and a marking start from: their input checked and indexed.
#![tactic(auto)]

// What the calls on a transition and a marking start from.
pub mod situation;
