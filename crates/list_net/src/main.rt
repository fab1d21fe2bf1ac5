// Prints a net image, little-endian words from standard input, word by word: position, word in hexadecimal, and what it is in words, indented by
// structure. At a refused word it prints the refusal and its reason. The refusal is the one of check, so that "refused 3 17" can be looked up.
#![tactic(auto)]

use listing::list::list_words;
use listing::output::LineOutput;
use std::fmt;
use std::fmt::Write;
use word::bytes::words_of_bytes;

// A length that is not a whole number of words is refused first, as check on bytes refuses it.
fn list_bytes(out: &mut impl fmt::Write, bytes: &[u8]) -> fmt::Result {
    let mut words = [0u32; 16385];
    let count = words_of_bytes(bytes, &mut words);
    if bytes.len() % 4 == 0 {
        list_words(out, &words[..count])
    } else {
        writeln!(out, "refused 2 {count}")
    }
}

// No word behind the 16,385th is needed to tell what check says.
fn main() {
    let mut space = [0u8; 65540];
    let n = io::read_full(0, &mut space);
    let _ = list_bytes(&mut LineOutput::new(), &space[..n]);
}
