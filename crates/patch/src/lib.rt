// A marking's words with some counts set: what stays is copied, an entry that changes is written anew.
#![tactic(auto)]

// Words copied.
pub mod words;
// The words of an entry.
pub mod entry;
