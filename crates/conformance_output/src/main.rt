// Prints to standard output by both writers of the listing in turn: what goes out at once stands before the line that waits for its end, and a short text
// that no line's end follows is printed by the one that writes at once, and by that alone.
#![tactic(auto)]

use listing::output::{LineOutput, Output};
use std::fmt;
use std::fmt::Write;

fn print_both(now: &mut impl fmt::Write, waiting: &mut impl fmt::Write) -> fmt::Result {
    write!(waiting, "then a line ")?;
    write!(now, "at once; ")?;
    writeln!(waiting, "at its end")?;
    write!(now, "without an end")?;
    write!(waiting, "not printed")
}

fn main() {
    let _ = print_both(&mut Output, &mut LineOutput::new());
}
