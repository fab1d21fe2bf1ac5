// The counts of a marking that was read.
#![tactic(auto)]

// The count of a colour, found by bisection.
pub mod find;
