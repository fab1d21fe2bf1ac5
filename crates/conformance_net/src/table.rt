// Tables of cases, read from standard input. A line `== ` is a heading. A line `* ` and a form says what the words of the cases under it are; the
// form's first letter tells it. Any other line is a case: its name, ` | ` and words, from which the form makes a net.
use crate::forms::run;
use crate::output::Output;
use crate::report::heading;
use conformance_plain::text::{after, byte_at, find, part};
use std::fmt;

// The case at a position: its name ends a space before the bar, its words begin a space after it.
fn run_case(out: &mut Output, form: u8, text: &[u8], at: usize, end: usize) -> fmt::Result {
    let bar = find(text, at, b'|');
    if bar == 0 {
        return Ok(());
    }
    let name = part(text, at, bar - 1);
    run(out, form, name, part(text, after(text, bar, 2), end))
}

// Each line of a text.
fn lines(out: &mut Output, text: &[u8]) -> fmt::Result {
    let mut form = b'w';
    let mut at = 0;
    // A line has a byte at least, so that no text has more lines than bytes.
    for _ in text {
        if text.len() <= at {
            break;
        }
        let end = find(text, at, b'\n');
        match byte_at(text, at) {
            b'=' => heading(out, part(text, after(text, at, 3), end))?,
            b'*' => form = byte_at(text, after(text, at, 2)),
            _ => run_case(out, form, text, at, end)?,
        }
        at = after(text, end, 1);
    }
    Ok(())
}

// All of standard input, or as much as there is room for.
pub fn all(out: &mut Output) -> fmt::Result {
    let mut text = [0u8; 65536];
    let n = io::read_full(0, &mut text);
    lines(out, part(&text, 0, n))
}
