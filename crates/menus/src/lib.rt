// The menu of a transition: every enabled binding, once and in order.
#![tactic(auto)]

// The call menu.
pub mod menu;
