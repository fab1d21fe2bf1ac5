// Prints the printed menu for the inputs of the file stdin beside this folder, each under a line with its name. What each has to say was worked out from
// document 01 and stands in the file stdout.
#![tactic(auto)]

// Inputs as bytes.
mod input;
// Inputs of 65,536 bytes and around.
mod long;
// Tables of inputs.
mod table;

fn main() {
    io::write_all(1, b"conformance of the printed menu with document 01\n");
    table::all();
}
