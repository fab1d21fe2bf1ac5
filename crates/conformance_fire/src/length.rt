// Nets and markings of 16,384 words and around, built by loops.
use conformance_plain::build::{front, put, repeat, write};
use conformance_report::report::{case, long_case};

// An expression of 15 words: the sum of eight zeros.
fn sum(words: &mut [u32], at: usize) -> usize {
    let next = repeat(words, at, 0x9000_0000, 7);
    repeat(words, next, 0x7000_0000, 8)
}

// Eight arcs of a place of one component, or eight conjuncts: a head and two such expressions, 31 words each.
fn eight(words: &mut [u32], at: usize, head: u32) -> usize {
    let mut next = at;
    for _ in 0..8 {
        next = put(words, next, head);
        next = sum(words, next);
        next = sum(words, next);
    }
    next
}

// A place and 33 transitions of eight output arcs and eight conjuncts, 497 words each.
fn fill(words: &mut [u32]) {
    let mut next = write(words, 0, b"1:121 2:1 3:9");
    for _ in 0..33 {
        next = put(words, next, 0x4000_8800);
        next = eight(words, next, 0x5000_0000);
        next = eight(words, next, 0x6000_0000);
    }
}

// The first words of a net of 16,404, as many as a text says. Transition, marking and binding are bad too.
pub fn long_net(name: &[u8], text: &[u8]) {
    let mut a = [0; 1];
    write(&mut a, 0, text);
    let [n] = a;
    let mut words = [0; 16404];
    fill(&mut words);
    let bad = front(&words, 1);
    case(name, front(&words, n as usize), 99, bad, bad, 0);
}

// 8,300 entries of count 1 of place 0: colours from (-8192) or (-8192, 0) on, the first component rising by 1, some components of 0 after it.
fn entries(words: &mut [u32], zeros: usize) {
    let mut next = 0;
    for above in 0..8300 {
        next = put(words, next, 0xB000_0001);
        next = put(words, next, 0xC000_0000 + (0x2000 + above) % 0x4000);
        next = repeat(words, next, 0xC000_0000, zeros);
    }
}

// A net from its words, and a marking from its numbers: how many components of 0, how many words, and another word at a position.
pub fn long_marking(name: &[u8], text: &[u8], numbers: &[u8]) {
    let mut net = [0; 32];
    let end = write(&mut net, 0, text);
    let mut a = [0; 4];
    write(&mut a, 0, numbers);
    let [zeros, n, at, w] = a;
    let mut words = [0; 16400];
    entries(&mut words, zeros as usize);
    put(&mut words, at as usize, w);
    long_case(name, front(&net, end), front(&words, n as usize), &[]);
}
