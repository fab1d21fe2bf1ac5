// The printed menu of one transition: its lines, or why it is withheld.
#![tactic(auto)]

// Lines of bindings.
pub mod lines;
// A transition's menu.
pub mod menu;
