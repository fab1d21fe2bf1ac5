// Nets: read from words in one pass, for the positions at which their structures begin.
#![tactic(auto)]

// Structures passed over, with the positions at which they begin.
pub mod skim;
// Where the structures of a net and of a transition begin.
pub mod index;
