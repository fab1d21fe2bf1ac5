// Arrivals at the elements of a plan: how many tries each makes, and each of them.
#![tactic(auto)]

// An arrival at an element, and its tries.
pub mod step;
