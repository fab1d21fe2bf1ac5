// Firing: the marking after a step, written to a second buffer. Each contract is one equation with a definition.
#![tactic(auto)]

// The call fire.
pub mod fire;
