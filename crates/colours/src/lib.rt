// Colours and their values in words: held against the ranges of the net, in order, and as numbers.
#![tactic(auto)]

// VALUE words held against the ranges of the net.
pub mod values;
// The order of colours.
pub mod order;
// Colours as numbers.
pub mod code;
// A value held against a RANGE word.
pub mod range;
