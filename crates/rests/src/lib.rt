// What leaves of a search look up, made out once for each transition of a net.
#![tactic(auto)]

// The nine numbers of each transition.
pub mod keep;
