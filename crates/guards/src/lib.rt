// Guards, told from the words of their conjuncts under lent binding words.
#![tactic(auto)]

// Conjuncts and guards.
pub mod guard;
