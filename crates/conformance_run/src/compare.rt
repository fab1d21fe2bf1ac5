// The call run held against what is due, and the first difference in full.
use conformance_picks::plain::Given;
use conformance_plain::build::{copy, front};
use conformance_report::report::{fill, same_words, say_words, stay, zeros};
use conformance_report::tally::Tally;
use run::run::run;
use semantics::Outcome;

// Picks that were done.
pub const DONE: usize = 19;

// Runs in which two picks and more were done.
pub const SEVERAL: usize = 20;

// Runs that were refused for the state after a pick was done.
pub const LATER: usize = 21;

// A run: the net, what is handed beside it, the words that the buffer holds, and the picks.
#[derive(Clone, Copy)]
pub struct Case<'a> {
    pub net: &'a [u32],
    pub given: Given,
    pub before: &'a [u32],
    pub picks: &'a [u32],
}

// An answer in the numbers that a caller is told: for no refusal its number and position are 0.
#[derive(Clone, Copy, PartialEq, Eq)]
pub struct Told {
    pub done: usize,
    pub number: u32,
    pub position: usize,
    pub length: usize,
}

impl From<Outcome> for Told {
    fn from(o: Outcome) -> Told {
        Told {
            done: o.done,
            number: o.stopped.map_or(0, |r| r.number()),
            position: o.stopped.map_or(0, |r| r.position()),
            length: o.length,
        }
    }
}

// What is due: the answer, the buffer as it has to be left, and whether spare and menu have to be cleared.
#[derive(Clone, Copy)]
pub struct Due<'a> {
    pub told: Told,
    pub after: &'a [u32],
    pub cleared: bool,
}

// What the call answered, and what it left in its buffers.
#[derive(Clone, Copy)]
struct Left {
    told: Told,
    buffer: [u32; 1600],
    spare: [u32; 1600],
    menu: [u32; 2400],
}

// The first words of a buffer.
fn first(buffer: &mut [u32], n: usize) -> &mut [u32] {
    let end = n.min(buffer.len());
    &mut buffer[..end]
}

// The call on the first words of its buffers.
fn ask(c: Case<'_>) -> Left {
    let g = c.given;
    let mut buffer = [0; 1600];
    let mut spare = [0; 1600];
    let mut menu = [0; 2400];
    copy(c.before, &mut buffer, 1600);
    fill(&mut spare);
    fill(&mut menu);
    let outcome = run(
        c.net,
        g.budget,
        first(&mut buffer, g.buffer),
        g.m,
        first(&mut spare, g.spare),
        first(&mut menu, g.menu),
        c.picks,
    );
    Left {
        told: Told::from(outcome),
        buffer,
        spare,
        menu,
    }
}

// Whether the first n words of spare or menu are cleared, or as before, and those after them as before.
fn is_left(words: &[u32], n: usize, cleared: bool) -> bool {
    let zeroed = if cleared { n } else { 0 };
    zeros(words, zeroed) && stay(words, zeroed, words.len())
}

// Whether what a call left is what is due.
fn is_due(g: Given, d: Due<'_>, l: &Left) -> bool {
    l.told == d.told
        && same_words(&l.buffer, d.after, 1600)
        && is_left(&l.spare, g.spare, d.cleared)
        && is_left(&l.menu, g.menu, d.cleared)
}

fn say_number(name: &[u8], n: usize) {
    io::write_all(1, name);
    io::print_decimal(1, n as u64);
}

fn say_list(name: &[u8], words: &[u32]) {
    io::write_all(1, name);
    say_words(words);
}

fn say_given(g: Given) {
    say_number(b"\nbudget ", g.budget as usize);
    say_number(b" m ", g.m);
    say_number(b" spare ", g.spare);
    say_number(b" menu ", g.menu);
}

fn say_case(c: Case<'_>) {
    say_list(b"DIFFERENCE\nnet", c.net);
    say_given(c.given);
    say_list(b"\nbuffer", front(c.before, c.given.buffer));
    say_list(b"\npicks", c.picks);
}

// An answer with what the buffer holds, and some words beyond.
fn say_told(name: &[u8], t: Told, g: Given, buffer: &[u32]) {
    io::write_all(1, name);
    say_number(b"done ", t.done);
    say_number(b" refusal ", t.number as usize);
    say_number(b" position ", t.position);
    say_number(b" length ", t.length);
    say_list(b", buffer", front(buffer, g.buffer.wrapping_add(4)));
}

fn say_difference(c: Case<'_>, d: Due<'_>, l: &Left) {
    let g = c.given;
    say_case(c);
    say_told(b"\ndue: ", d.told, g, d.after);
    say_told(b"\nrun: ", l.told, g, &l.buffer);
    say_list(b"\nspare", front(&l.spare, g.spare.wrapping_add(4)));
    say_list(b"\nmenu", front(&l.menu, g.menu.wrapping_add(4)));
    io::write_all(1, b"\n");
}

// The runs that were compared, by kind, and whether there was a difference.
#[derive(Clone, Copy)]
pub struct Compared {
    pub tally: Tally,
    differs: bool,
}

impl Compared {
    pub fn new() -> Compared {
        Compared {
            tally: Tally::new(),
            differs: false,
        }
    }

    // One more difference; answers whether it is the first.
    pub fn differ(&mut self) -> bool {
        let is_first = !self.differs;
        self.differs = true;
        self.tally.differ();
        is_first
    }

    // One more run that has to end so.
    fn count(&mut self, t: Told) {
        self.tally.add(t.number as usize, 1);
        self.tally.add(DONE, (t.done % 0x1_0000) as u32);
        self.tally.add_if(SEVERAL, 1 < t.done);
        self.tally.add_if(LATER, 0 < t.done && t.number != 0);
    }

    // One run against what is due of it; a first difference is printed in full.
    pub fn compare(&mut self, c: Case<'_>, d: Due<'_>) {
        self.count(d.told);
        let left = ask(c);
        if is_due(c.given, d, &left) {
            return;
        }
        if self.differ() {
            say_difference(c, d, &left);
        }
    }
}
