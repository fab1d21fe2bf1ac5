// For the conformance programs: lines of output that say what the calls answer and leave in the buffer, and numbers of cases by kind.
#![tactic(auto)]

// Lines of the output.
pub mod report;
// Numbers of cases by kind.
pub mod tally;
