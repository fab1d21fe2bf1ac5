// The tries of matches, and the partial binding that each goes on with.
#![tactic(auto)]

// A match try: a colour held against the components of an arc.
pub mod colour;
// What is known of an arc's components on arrival, and the colours that differ from it.
pub mod known;
