// Elements of plans, and the variables that each binds.
#![tactic(auto)]

// Elements of plans.
pub mod element;
// What a match binds.
pub mod bind;
// What a solve binds.
pub mod solve;
