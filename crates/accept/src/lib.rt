// Accepting nets: read, with their plans checked; `check` and `split`.
#![tactic(auto)]

// Nets that are accepted.
pub mod accepted;
// The call check.
pub mod check;
// The call split.
pub mod split;
