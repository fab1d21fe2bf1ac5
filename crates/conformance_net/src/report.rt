// Lines of the output: the case, and what check and split answer on its words.
use crate::output::Output;
use accept::check::check;
use accept::split::split;
use conformance_plain::build::{front, put};
use std::fmt;
use std::fmt::Write;

// What a call answers, as the two numbers that split writes: 0 and 0 where it succeeds.
#[derive(Clone, Copy)]
struct Answer {
    refusal: u32,
    position: usize,
}

impl fmt::Display for Answer {
    fn fmt<W: fmt::Write>(&self, f: &mut fmt::Formatter<W>) -> fmt::Result {
        match *self {
            Answer {
                refusal: 0,
                position: 0,
            } => write!(f, "accepted"),
            Answer { refusal, position } => write!(f, "refused {refusal} at {position}"),
        }
    }
}

// What check answers.
fn checked(words: &[u32]) -> Answer {
    match check(words) {
        Ok(()) => Answer {
            refusal: 0,
            position: 0,
        },
        Err(e) => Answer {
            refusal: e.number(),
            position: e.position(),
        },
    }
}

// What split answers, and the words that it hands back. The two numbers hold something else before the call.
fn parted(words: &[u32]) -> (Answer, &[u32]) {
    let mut refusal = 99;
    let mut position = 99;
    let part = split(words, &mut refusal, &mut position);
    (Answer { refusal, position }, part)
}

// A line: the case's name and what was done to its words, both answers on all of them, how many words split handed back, and the first of these.
pub fn line(out: &mut Output, name: &[u8], more: &str, words: &[u32]) -> fmt::Result {
    let checked = checked(words);
    let (answer, part) = parted(words);
    let left = part.len();
    out.put(name);
    write!(
        out,
        "{more} | check {checked} | split {answer}, leaves {left}"
    )?;
    if let Some(w) = part.first() {
        write!(out, " from {w:08x}")?;
    }
    writeln!(out)
}

// A TOKEN and a VALUE.
fn put_two(words: &mut [u32], at: usize) -> usize {
    let next = put(words, at, 0xB000_0014);
    put(words, next, 0xC000_0000)
}

// A case on the first n words of a buffer: alone, and then with two words after them.
pub fn case(out: &mut Output, name: &[u8], words: &mut [u32], n: usize) -> fmt::Result {
    line(out, name, "", front(words, n))?;
    let end = put_two(words, n);
    line(out, name, ", then 2 words", front(words, end))
}

// What check answers, in brief: `ok`, or the refusal and its position.
pub fn brief(out: &mut Output, words: &[u32]) -> fmt::Result {
    match check(words) {
        Ok(()) => write!(out, " ok"),
        Err(e) => write!(out, " {}@{}", e.number(), e.position()),
    }
}

// A line: the case's name, and what check answers.
pub fn check_line(out: &mut Output, name: &[u8], words: &[u32]) -> fmt::Result {
    out.put(name);
    writeln!(out, " | check {}", checked(words))
}

// A line: the case's name, and what split answers, with all words that it handed back.
pub fn split_line(out: &mut Output, name: &[u8], words: &[u32]) -> fmt::Result {
    let (answer, part) = parted(words);
    out.put(name);
    write!(out, " | split {answer}, rest:")?;
    for w in part {
        write!(out, " {w:08x}")?;
    }
    writeln!(out)
}

// A heading.
pub fn heading(out: &mut Output, name: &[u8]) -> fmt::Result {
    write!(out, "\n== ")?;
    out.put(name);
    writeln!(out)
}
