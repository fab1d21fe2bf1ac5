// Occurrences: whether a binding is enabled in a marking.
#![tactic(auto)]

// Whether a marking covers keys.
pub mod cover;
// Whether a binding is enabled.
pub mod enabled;
