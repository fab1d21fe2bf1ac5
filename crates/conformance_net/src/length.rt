// Nets of 16,384 words and around, built by loops from transitions whose expressions have 15 words each.
use crate::nets::good;
use crate::output::Output;
use crate::report::{case, line};
use conformance_plain::build::{put, repeat, write};
use conformance_plain::text::{after, find, part};
use std::fmt;

// An expression of 15 words: the sum of eight zeros.
fn sum(words: &mut [u32], at: usize) -> usize {
    let next = repeat(words, at, 0x9000_0000, 7);
    repeat(words, next, 0x7000_0000, 8)
}

// Arcs of a place of one component, or conjuncts: a head and two such expressions, 31 words each.
fn several(words: &mut [u32], at: usize, head: u32, count: u32) -> usize {
    let mut next = at;
    for _ in 0..count {
        next = put(words, next, head);
        next = sum(words, next);
        next = sum(words, next);
    }
    next
}

// A transition of eight output arcs and some conjuncts, with its TRANSITION word as given: 249 words and 31 for each conjunct.
fn large(words: &mut [u32], at: usize, w: u32, conjuncts: u32) -> usize {
    let head = put(words, at, w);
    let arcs = several(words, head, 0x5000_0000, 8);
    several(words, arcs, 0x6000_0000, conjuncts)
}

// NET as given, a place and 32 transitions of eight output arcs and eight conjuncts, 497 words each: 15,907 words.
fn trunk(words: &mut [u32], net: u32) -> usize {
    let first = put(words, 0, net);
    let mut next = write(words, first, b"2:1 3:9");
    for _ in 0..32 {
        next = large(words, next, 0x4000_8800, 8);
    }
    next
}

// Such a net, its NET word and a number before a bar; a transition of some conjuncts; so many transitions of one word; the words behind the bar.
fn long(out: &mut Output, name: &[u8], w: u32, conjuncts: u32, text: &[u8]) -> fmt::Result {
    let bar = find(text, 0, b'|');
    let mut a = [0; 2];
    write(&mut a, 0, part(text, 0, bar));
    let [net, small] = a;
    let mut words = [0; 16400];
    let at = trunk(&mut words, net);
    let next = large(&mut words, at, w, conjuncts);
    let last = repeat(&mut words, next, 0x4000_0000, small as usize);
    let rest = part(text, after(text, bar, 2), text.len());
    let n = write(&mut words, last, rest);
    case(out, name, &mut words, n)
}

// With seven conjuncts 16,373 words and those of one word.
pub fn around(out: &mut Output, name: &[u8], text: &[u8]) -> fmt::Result {
    long(out, name, 0x4000_7800, 7, text)
}

// With six conjuncts 16,342 words and those of one word.
pub fn expression(out: &mut Output, name: &[u8], text: &[u8]) -> fmt::Result {
    long(out, name, 0x4000_6800, 6, text)
}

// Words after a net may be more than a net's.
pub fn much_after(out: &mut Output, name: &[u8], text: &[u8]) -> fmt::Result {
    let mut words = [0; 16400];
    let n = good(&mut words);
    write(&mut words, n, text);
    line(out, name, "", &words)
}
