// For the conformance programs: document 01 read plainly, with nothing of the engine. Words written as text, the parts of a net, what an expression is worth,
// and a marking as an array of counts.
#![tactic(auto)]

// Words put into a buffer.
pub mod build;
// A marking as an array of counts.
pub mod counts;
// Where the parts of a net and of a marking stand.
pub mod reading;
// A binding's slots.
pub mod slots;
// Fields of a text.
pub mod text;
// Tuples of values by their index.
pub mod tuples;
// What an expression is worth.
pub mod value;
