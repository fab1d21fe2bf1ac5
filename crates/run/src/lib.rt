// Runs of picks: the marking after each pick is the one that the next pick starts from.
#![tactic(auto)]

// The call run.
pub mod run;
