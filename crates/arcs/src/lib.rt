// What an arc says under lent binding words, told from its words in a net.
#![tactic(auto)]

// What one arc moves.
pub mod flow;
