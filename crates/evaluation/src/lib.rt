// Expressions evaluated where they stand in the words of a net, under a binding of VALUE words, by recursion, the number of words left in
// the slice falling at each call; no tree is made.
#![tactic(auto)]

// The value of an expression.
pub mod evaluate;
