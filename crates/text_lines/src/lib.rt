// The lines that the printing program prints, put into a lent buffer of bytes. What finds no room is left out.
#![tactic(auto)]

// Lines.
pub mod line;
