// Where the places of a marking begin, moved by a list of changes.
#![tactic(auto)]

// The beginnings, moved place by place.
pub mod begins;
