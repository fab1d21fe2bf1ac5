// Nets for the cases: a good net that has every kind of word, damaged in one place or cut; nets around one transition or two; nets of many
// places and transitions.
use crate::output::Output;
use crate::report::{brief, case};
use conformance_plain::build::{put, repeat, write};
use std::fmt;
use std::fmt::Write;

// The good net, 34 words. Its positions:
//    0 NET, two places and one transition
//    1 PLACE of one component, RANGE; 3 PLACE of two, RANGE, RANGE
//    6 TRANSITION with variables x, y, z, two inputs, one output, two conjuncts, three elements; 7 to 9 their RANGEs
//   10 ARC of place 0, 1`(x); 13 ARC of place 1, (z * 1)`(y, x); 19 output ARC of place 0, 2`(load z)
//   23 CONJUNCT y = x + 1; 28 CONJUNCT x <= -1
//   31 ELEMENTs: match input 0, solve conjunct 0, range z
const GOOD: [&str; 3] = [
    "1:201 2:1 3:FFFC002 2:2 3:3 3:4004 4:32123 3:3 3:4 3:8005",
    "5:0 7:1 8:0 5:1 9:2 8:2 7:1 8:1 8:0 5:0 7:2 9:4 8:2",
    "6:0 8:1 9:0 8:0 7:1 6:3 8:0 7:3FFF A:0 A:100 A:202",
];

// The good net at the front of a buffer; answers the position after it.
pub fn good(words: &mut [u32]) -> usize {
    let mut at = 0;
    for text in GOOD {
        at = write(words, at, text.as_bytes());
    }
    at
}

// The first n words of the good net with other words at some positions.
pub fn damaged(out: &mut Output, name: &[u8], others: &[(usize, u32)], n: usize) -> fmt::Result {
    let mut words = [0; 64];
    good(&mut words);
    for &(at, w) in others {
        put(&mut words, at, w);
    }
    case(out, name, &mut words, n)
}

// What check answers on the good net with another word at a position, in brief.
fn attempt(out: &mut Output, at: usize, w: u32) -> fmt::Result {
    let mut words = [0; 34];
    good(&mut words);
    put(&mut words, at, w);
    brief(out, &words)
}

// A line with 16 answers: at a position of the good net a word of each kind from 0 to F, its other bits as given.
pub fn kinds(out: &mut Output, name: &[u8], at: usize, bits: u32) -> fmt::Result {
    out.put(name);
    write!(out, " |")?;
    for kind in 0..16u32 {
        attempt(out, at, bits.wrapping_add(kind * 0x1000_0000))?;
    }
    writeln!(out)
}

// A line with an answer for each of some bits, the lowest given: at a position of the good net its word with that bit set.
pub fn stray(
    out: &mut Output,
    name: &[u8],
    at: usize,
    w: u32,
    lowest: u32,
    bits: u32,
) -> fmt::Result {
    out.put(name);
    write!(out, " |")?;
    let mut bit = lowest;
    for _ in 0..bits {
        attempt(out, at, w.wrapping_add(bit))?;
        bit = bit.wrapping_mul(2);
    }
    writeln!(out)
}

// A net from its first words and the others.
pub fn headed(out: &mut Output, name: &[u8], head: &[u8], text: &[u8]) -> fmt::Result {
    let mut words = [0; 128];
    let at = write(&mut words, 0, head);
    let n = write(&mut words, at, text);
    case(out, name, &mut words, n)
}

// A net of so many places of one component and so many transitions of nothing, with its NET word as given.
pub fn counted(
    out: &mut Output,
    name: &[u8],
    net: u32,
    places: u32,
    transitions: usize,
) -> fmt::Result {
    let mut words = [0; 600];
    let mut at = put(&mut words, 0, net);
    for _ in 0..places {
        at = write(&mut words, at, b"2:1 3:9");
    }
    let n = repeat(&mut words, at, 0x4000_0000, transitions);
    case(out, name, &mut words, n)
}
