// Plans: where a plan is at fault, refusal 5.
#![tactic(auto)]

// What an element binds, and where a plan is at fault.
pub mod plan;
