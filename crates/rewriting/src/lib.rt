// The new marking, written from the old one and a list of changes.
#![tactic(auto)]

// What stays is copied, an entry that changes is written anew.
pub mod write;
