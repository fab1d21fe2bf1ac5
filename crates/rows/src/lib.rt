// Rows of VALUE words, all of one width, kept strictly rising and each once at the front of a lent buffer.
#![tactic(auto)]

// How rows stand to each other.
pub mod compare;
// A row put in its place.
pub mod insert;
