// The counts that a step changes, told key by key in rising order. Each contract is one equation with a definition.
#![tactic(auto)]

// Keys in rising order.
pub mod keys;
// The count that a step changes.
pub mod change;
