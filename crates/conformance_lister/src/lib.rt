// For the conformance programs: document 01's menu read plainly, with nothing of the engine. What arcs move, the enabled bindings of a transition in order, and
// the tries of its plan.
#![tactic(auto)]

// The count of tries.
pub mod counting;
// What arcs move under a binding.
pub mod flow;
// The enabled bindings of a transition.
pub mod lister;
