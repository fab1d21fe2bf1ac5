// The calls on little-endian bytes under one name. Each stands in a crate of its own.
#![tactic(auto)]

// Check.
pub mod check;
// Test.
pub mod test;
