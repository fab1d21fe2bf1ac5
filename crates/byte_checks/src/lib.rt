// Check on little-endian bytes: the refusal for a bad length, then the call on the words, which go into a lent buffer.
#![tactic(auto)]

// The words of bytes in a lent buffer.
pub mod buffer;
// Check.
pub mod check;
