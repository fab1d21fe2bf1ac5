// Inputs: words as little-endian bytes, with spare bytes after them.
use conformance_plain::build::{front, write};
use conformance_plain::text::part;
use text::put::{put_byte, put_bytes};

// The name of an input, and what is printed for its words and spare bytes, a number each.
pub fn show(name: &[u8], words: &[u32], spare: &[u32]) {
    let mut bytes = [0u8; 65600];
    let mut n = 0;
    for w in words {
        n = put_bytes(&mut bytes, n, &w.to_le_bytes());
    }
    for b in spare {
        n = put_byte(&mut bytes, n, (b % 256) as u8);
    }
    io::write_all(1, b"-- ");
    io::write_all(1, name);
    io::write_all(1, b"\n");
    printing::write_printed(part(&bytes, 0, n));
}

// The same, the words being written as text.
pub fn short(name: &[u8], text: &[u8], spare: &[u32]) {
    let mut words = [0; 256];
    let end = write(&mut words, 0, text);
    show(name, front(&words, end), spare);
}
