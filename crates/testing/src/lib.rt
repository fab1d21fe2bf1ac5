// The call test: whether a binding of a transition is enabled in a marking.
#![tactic(auto)]

// The call test.
pub mod test;
