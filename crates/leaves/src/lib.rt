// Full bindings, which a search ends in: put among the rows of the menu, where they are enabled.
#![tactic(auto)]

// What a search has come to so far.
pub mod progress;
// A full binding: a row of the menu, where it is enabled.
pub mod leaf;
