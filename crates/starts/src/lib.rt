// What a run starts from: its input checked and the net indexed.
#![tactic(auto)]

// Refusals in their order, or the index of the net.
pub mod begin;
