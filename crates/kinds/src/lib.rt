// One word of a structure: its kind, and the limits that hold of a word by itself.
#![tactic(auto)]

// A word taken from a net.
pub mod take;
