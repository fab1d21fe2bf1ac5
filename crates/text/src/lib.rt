// Text put into a lent buffer of bytes from a position on. What finds no room is left out, so that no function asks for room.
#![tactic(auto)]

// Bytes.
pub mod put;
// Numbers and values.
pub mod number;
