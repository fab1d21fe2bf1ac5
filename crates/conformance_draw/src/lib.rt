// For the conformance programs: nets, markings and plans drawn from a fixed sequence of numbers.
#![tactic(auto)]

// A sequence of numbers, and expressions drawn from it.
pub mod draw;
// Drawn nets and markings.
pub mod nets;
// Drawn plans.
pub mod plans;
