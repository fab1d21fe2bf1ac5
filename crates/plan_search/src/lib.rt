// The search for enabled bindings over a whole plan, with or without elements.
#![tactic(auto)]

// The search over a whole plan.
pub mod plan;
