// Picks: the menu of a pick's transition, the binding at its index, and the marking after it.
#![tactic(auto)]

// One pick.
pub mod pick;
