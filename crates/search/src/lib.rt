// The search for enabled bindings over the elements of a transition's plan.
#![tactic(auto)]

// The search, by recursion over the plan.
pub mod walk;
