// Tables of cases, read from standard input. A line `== ` is a heading. A line `* ` says which calls the cases under it are for, by its first letter, and the
// words that their nets begin with:
//   b  both: test and fire
//   t  test
//   f  fire
//   n  net: both on a net of more than 16,384 words, from their number
//   m  marking: both on a marking of about 16,384 words, from a net and the marking's numbers
// Any other line is a case, with bars between its fields: name, net, marking, binding, numbers. The numbers are the transition and the room for the new
// marking, 0 and 24 where they are left out.
use crate::length::{long_marking, long_net};
use conformance_plain::build::{front, write};
use conformance_plain::text::{after, byte_at, field, find, name, part};
use conformance_report::report::{case, fire_case, heading, test_case};

// One case with its words, from its line and the first words of its net.
fn run_words(form: u8, head: &[u8], line: &[u8]) {
    let mut net = [0; 128];
    let first = write(&mut net, 0, head);
    let end = write(&mut net, first, field(line, 1));
    let net = front(&net, end);
    let mut marking = [0; 64];
    let end = write(&mut marking, 0, field(line, 2));
    let marking = front(&marking, end);
    let mut binding = [0; 16];
    let end = write(&mut binding, 0, field(line, 3));
    let binding = front(&binding, end);
    let mut a = [0, 24];
    write(&mut a, 0, field(line, 4));
    let [transition, room] = a;
    let room = room as usize;
    match form {
        b't' => test_case(name(line), net, transition, marking, binding),
        b'f' => fire_case(name(line), net, transition, marking, binding, room),
        _ => case(name(line), net, transition, marking, binding, room),
    }
}

// One case by its form.
fn run(form: u8, head: &[u8], line: &[u8]) {
    match form {
        b'n' => long_net(name(line), field(line, 1)),
        b'm' => long_marking(name(line), field(line, 1), field(line, 2)),
        _ => run_words(form, head, line),
    }
}

// Each line of a text. The words of a table's line stand behind four letters of its form.
fn lines(text: &[u8]) {
    let mut table = 0;
    let mut at = 0;
    // A line has a byte at least, so that no text has more lines than bytes.
    for _ in text {
        if text.len() <= at {
            break;
        }
        let end = find(text, at, b'\n');
        match byte_at(text, at) {
            b'=' => heading(part(text, after(text, at, 3), end)),
            b'*' => table = at,
            _ => run(
                byte_at(text, after(text, table, 2)),
                part(text, after(text, table, 7), find(text, table, b'\n')),
                part(text, at, end),
            ),
        }
        at = after(text, end, 1);
    }
}

// All of standard input, or as much as there is room for.
pub fn all() {
    let mut text = [0u8; 65536];
    let n = io::read_full(0, &mut text);
    lines(part(&text, 0, n));
}
