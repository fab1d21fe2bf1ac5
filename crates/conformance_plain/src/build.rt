// Words put one after the other into a lent buffer, and words written as text.
//
// A word is written as its kind and its other bits, both in hexadecimal, with a colon between: `7:1` is CONSTANT 1, 70000001. A
// number in decimal is written after `@`. One space parts two words.

// One word at a position; answers the next position. A full buffer stays as it is.
pub fn put(words: &mut [u32], at: usize, w: u32) -> usize {
    if at < words.len() {
        words[at] = w;
        return at + 1;
    }
    at
}

// The same word several times.
pub fn repeat(words: &mut [u32], at: usize, w: u32, times: usize) -> usize {
    let mut next = at;
    for _ in 0..times {
        next = put(words, next, w);
    }
    next
}

// What is read of a word: the base of its digits, its kind and its other bits so far.
#[derive(Clone, Copy)]
struct Reading {
    base: u32,
    kind: u32,
    bits: u32,
}

impl Reading {
    const START: Reading = Reading {
        base: 16,
        kind: 0,
        bits: 0,
    };

    // One byte more.
    fn with_byte(self, b: u8) -> Reading {
        match b {
            b'@' => Reading {
                base: 10,
                ..Reading::START
            },
            b':' => Reading {
                kind: self.bits,
                ..Reading::START
            },
            _ => Reading {
                bits: (self.bits % 0x1000_0000)
                    .wrapping_mul(self.base)
                    .wrapping_add(digit(b)),
                ..self
            },
        }
    }

    fn word(self) -> u32 {
        (self.kind % 16 * 0x1000_0000).wrapping_add(self.bits)
    }
}

fn digit(b: u8) -> u32 {
    match b {
        b'0'..=b'9' => (b - b'0') as u32,
        b'A'..=b'F' => (b - b'A') as u32 + 10,
        _ => 0,
    }
}

fn word_of(text: &[u8]) -> u32 {
    text.iter()
        .fold(Reading::START, |r, b| r.with_byte(*b))
        .word()
}

// The words of a text from a position; answers the position after them.
pub fn write(words: &mut [u32], at: usize, text: &[u8]) -> usize {
    if text.is_empty() {
        return at;
    }
    let mut next = at;
    for word in text.split(|b| *b == b' ') {
        next = put(words, next, word_of(word));
    }
    next
}

// The first n words of a buffer copied to another, as many as both have.
pub fn copy(from: &[u32], to: &mut [u32], n: usize) {
    let end = n.min(from.len()).min(to.len());
    to[..end].copy_from_slice(&from[..end]);
}

// The first n words, or all where there are fewer.
pub fn front(words: &[u32], n: usize) -> &[u32] {
    &words[..n.min(words.len())]
}
