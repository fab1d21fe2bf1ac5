// Net images in words: a line for each word, and at a refused word the refusal of check and its reason.
#![tactic(auto)]

// Words on lines.
pub mod list;
// What a word is, in words.
pub mod describe;
// Expressions in words.
pub mod spell;
// Why a word is refused.
pub mod reason;
// Where in a net a word stands.
pub mod state;
// Standard output as writers, at once and by the line.
pub mod output;
