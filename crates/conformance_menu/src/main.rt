// Holds the call menu against a lister that goes through all bindings of a transition in order and keeps those enabled under an array of counts, and W against
// a separate count of the tries: on the cases of the file stdin beside this folder and on nets, markings and plans drawn from a fixed sequence of numbers. It prints how many
// it compared by kind, and the first difference in full.
#![tactic(auto)]

// The call menu held against what is due.
mod compare;
// Drawn cases.
mod drawn;
// What a case has in it.
mod case_kinds;
// Examples of document 01 and outside cases.
mod outside;

fn main() {
    io::write_all(
        1,
        b"menu against a lister over all bindings and a count of tries, document 01\n",
    );
    outside::all();
    drawn::all();
}
