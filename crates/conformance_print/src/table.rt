// Tables of inputs, read from standard input. A line `* ` says what the inputs under it are, by its first letter: `w` for words, `l` for the number of words
// of a long input. Any other line is an input, with bars between its fields: name, words or their number, spare bytes.
use crate::input::short;
use crate::long::long;
use conformance_plain::build::{front, write};
use conformance_plain::text::{byte_at, field, name, part};

// One input from its line.
fn run(form: u8, line: &[u8]) {
    let mut spare = [0; 4];
    let n = write(&mut spare, 0, field(line, 2));
    match form {
        b'l' => long(name(line), field(line, 1), front(&spare, n)),
        _ => short(name(line), field(line, 1), front(&spare, n)),
    }
}

// Each line of a text.
fn lines(text: &[u8]) {
    let mut form = b'w';
    for whole in text.split_inclusive(|b| *b == b'\n') {
        let line = whole.strip_suffix(b"\n").unwrap_or(whole);
        match byte_at(line, 0) {
            b'*' => form = byte_at(line, 2),
            _ => run(form, line),
        }
    }
}

// All of standard input, or as much as there is room for.
pub fn all() {
    let mut text = [0u8; 65536];
    let n = io::read_full(0, &mut text);
    lines(part(&text, 0, n));
}
