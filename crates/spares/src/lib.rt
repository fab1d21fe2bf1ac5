// The input arcs that leaves of a search need not look up.
#![tactic(auto)]

// Which arcs they are, and the positions of the others.
pub mod spare;
