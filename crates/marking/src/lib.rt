// Markings, bindings and picks read from words, with refusals 6 to 9.
// Each contract is one equation with a definition of semantics.
#![tactic(auto)]

// One entry of a marking.
pub mod entry;
// A whole marking: where the entries of each place begin.
pub mod index;
// Bindings.
pub mod binding;
// Picks.
pub mod pick;
