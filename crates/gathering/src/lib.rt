// What several arcs move under lent binding words.
#![tactic(auto)]

// Their keys and amounts, one behind the other.
pub mod gather;
