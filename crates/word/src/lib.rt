// The leaf functions on words. Each contract is one equation with a definition of semantics/specs.
#![tactic(auto)]

// Words from little-endian bytes.
pub mod bytes;
// Sizes.
pub mod size;
// Fields of words, values, and the words that are written.
pub mod fields;
