// The printed menu in parts: the text that a program writes for the bytes that it reads. The definition of the whole text is `printed` of
// semantics/specs/Print.
#![tactic(auto)]

// Parts of the text.
pub mod part;
