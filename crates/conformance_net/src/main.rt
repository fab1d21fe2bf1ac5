// Prints what the calls check and split answer on nets, good and damaged in one place, a line for each case. The cases stand in the file stdin beside
// this folder. What each line has to say was worked out from document 01 and stands in the file stdout.
#![tactic(auto)]

// Nets of 16,384 words.
mod length;
// Nets for the cases.
mod nets;
// Standard output as a writer.
mod output;
// Lines of the output.
mod report;
// Cases by their forms.
mod forms;
// Tables of cases.
mod table;

use output::Output;

fn main() {
    io::write_all(1, b"conformance of check and split with document 01\n");
    let _ = table::all(&mut Output);
}
