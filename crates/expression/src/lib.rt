// Expressions in prefix form, where they stand in the words of a net, told by their first words and passed over by recursion, the number of words
// left falling at each call; no tree is made.
#![tactic(auto)]

// The first word of an expression.
pub mod head;
// An expression passed over.
pub mod read;
