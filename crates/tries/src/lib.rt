// Partial bindings, which tries go on with, and the tries of ranges.
#![tactic(auto)]

// Partial bindings.
pub mod partial;
// A range try: a variable takes each value of its range.
pub mod range;
