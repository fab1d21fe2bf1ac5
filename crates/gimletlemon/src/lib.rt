// The calls as functions on slices and numbers, which tell their answers in numbers that are lent. The crate gimletlemon_c hands them to C programs.
#![tactic(auto)]

// Check and split.
pub mod nets;
// Test.
pub mod test;
// Menu.
pub mod menu;
// Fire.
pub mod fire;
// Run.
pub mod runs;
