// Holds the calls test and fire against a plain firing on counts, on nets, markings and bindings drawn from a fixed sequence of numbers, and prints how
// many cases had which answer. The numbers in the file stdout beside this folder were worked out from document 01 with the same sequence.
#![tactic(auto)]

// Damage to a case.
mod damage;
// Drawn expressions.
mod draw;
// Drawn nets.
mod nets;
// Plain firing on counts.
mod plain;
// Drawn cases.
mod sample;
// Buffers of words.
mod words;

fn main() {
    io::write_all(
        1,
        b"test and fire against a plain firing on counts, document 01\n",
    );
    sample::all();
}
