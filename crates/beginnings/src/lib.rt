// Where the entries of each place begin in a marking that is known to be accepted.
#![tactic(auto)]

// The table of a whole marking.
pub mod begins;
