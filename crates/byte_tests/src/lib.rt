// Test on little-endian bytes: the refusals for bad lengths, then the call on the words.
#![tactic(auto)]

// Test.
pub mod test;
