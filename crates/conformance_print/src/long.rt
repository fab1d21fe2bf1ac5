// Inputs of 65,536 bytes and around: a net of four words, then a marking of entries of two words.
use crate::input::show;
use conformance_plain::build::{front, put, write};

// 8,192 entries of count 1 of place 0 with the colours -8192, -8191 and on.
fn entries(words: &mut [u32], at: usize) {
    let mut next = at;
    for above in 0..8192 {
        next = put(words, next, 0xB000_0001);
        next = put(words, next, 0xC000_0000 + (0x2000 + above) % 0x4000);
    }
}

// The first of these words, as many as a text says, and some spare bytes.
pub fn long(name: &[u8], text: &[u8], spare: &[u32]) {
    let mut a = [0; 1];
    write(&mut a, 0, text);
    let [n] = a;
    let mut words = [0; 16388];
    let first = write(&mut words, 0, b"1:101 2:1 3:8001FFF 4:0");
    entries(&mut words, first);
    show(name, front(&words, n as usize), spare);
}
