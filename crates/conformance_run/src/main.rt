// Holds the call run against a plain run of its own on an array of counts: on the cases of the file stdin beside this folder and on nets, markings, picks,
// budgets and buffers drawn from a fixed sequence of numbers. It prints how many runs it compared by how they ended, and the first difference in full.
#![tactic(auto)]

// The call run held against what is due.
mod compare;
// Drawn runs.
mod drawn;
// Outside cases.
mod outside;

fn main() {
    io::write_all(
        1,
        b"run against a plain run on an array of counts, document 01\n",
    );
    outside::all();
    drawn::all();
}
