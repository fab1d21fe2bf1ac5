// The counts that a step changes, listed in tables.
#![tactic(auto)]

// A row for each count that changes, rising.
pub mod list;
