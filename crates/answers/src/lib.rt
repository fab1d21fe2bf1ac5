// Answers of the calls as a C program is told them.
#![tactic(auto)]

// The refusal's number returned, the other numbers written.
pub mod tell;
