// Prints what the calls test and fire answer, a line for each case. The cases stand in the file stdin beside this folder. What each line has to say was
// worked out from document 01 and stands in the file stdout.
#![tactic(auto)]

// Nets and markings of 16,384 words.
mod length;
// Tables of cases.
mod table;

fn main() {
    io::write_all(1, b"conformance of test and fire with document 01\n");
    table::all();
}
