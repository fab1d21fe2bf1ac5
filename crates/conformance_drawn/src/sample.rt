// Cases drawn from a fixed sequence, some of them damaged; test and fire are held against plain firing on counts.
use crate::damage::{Damage, Input};
use crate::draw::Binding;
use crate::nets::Net;
use crate::plain::{COLOURS, Counts, covered, move_tokens};
use crate::words::Words;
use conformance_draw::draw::Pen;
use conformance_plain::counts::put_marking;
use conformance_report::report::{
    fill, fire_into, first_changed, heading, same_words, say_fire, say_test, say_words,
};
use conformance_report::tally::Tally;
use semantics::refusal::Refusal;
use testing::test::test;

// Cases whose input is accepted and whose binding is enabled.
const ENABLED: usize = 17;

fn count_of(k: u32) -> u32 {
    match k {
        3 => 1,
        4 => 2,
        5 => 5,
        6 => 16382,
        7 => 16383,
        _ => 0,
    }
}

// A drawn case: its net and binding, the counts of its marking, the room, two kinds of damage, and the state of the sequence after it.
#[derive(Clone, Copy)]
struct Case {
    net: Net,
    counts: Counts,
    room: usize,
    first: Option<Damage>,
    second: Option<Damage>,
    seed: u64,
}

impl Case {
    fn draw(seed: u64) -> Case {
        let net = Net::draw(seed);
        let mut counts = [0u32; COLOURS];
        let mut d = Pen {
            words: &mut counts,
            at: 0,
            seed: net.seed,
        };
        for _ in 0..COLOURS {
            let k = d.draw(8);
            d.word(count_of(k));
        }
        let room = d.draw(90).min(40) as usize;
        let first = Damage::of(d.draw(60));
        let second = Damage::of(d.draw(60));
        let end = d.end();
        Case {
            net,
            counts,
            room,
            first,
            second,
            seed: end.seed,
        }
    }

    // The marking of counts.
    fn marking(&self, counts: &Counts) -> Words {
        let mut m = Words::EMPTY;
        m.length = put_marking(&mut m.words, self.net.words.all(), counts);
        m
    }

    // What the calls are handed.
    fn input(&self) -> Input {
        let marking = self.marking(&self.counts);
        let binding = binding_words(self.net.binding);
        let mut z = Input::new(self.net.words, marking, binding, self.room);
        z.damage(self.first, self.second);
        z
    }

    fn fire_plainly(&self) -> Plain {
        let net = &self.net;
        let mut counts = self.counts;
        let enabled = net.holds && net.taken.good && covered(&net.taken.sums, &counts);
        let fits = move_tokens(&mut counts, &net.taken.sums, &net.given.sums);
        let after = self.marking(&counts);
        Plain {
            enabled,
            refused: refusal(enabled, net.given.good, fits, after.length <= self.room),
            after,
        }
    }
}

fn binding_words(b: Binding) -> Words {
    let mut words = Words::EMPTY;
    words.push(0xC000_0000 + b.x.cast_unsigned() % 0x4000);
    words.push(0xC000_0000 + b.y.cast_unsigned() % 0x4000);
    words
}

// The state refusal that is due.
fn refusal(enabled: bool, good: bool, fits: bool, has_room: bool) -> Option<Refusal> {
    if !enabled {
        return Some(Refusal::NotEnabled);
    }
    if !good {
        return Some(Refusal::BadOutput);
    }
    if !fits {
        return Some(Refusal::OverCount);
    }
    (!has_room).then_some(Refusal::OverRoom)
}

// What plain firing answers: whether the binding is enabled, the refusal, and the new marking.
#[derive(Clone, Copy)]
struct Plain {
    enabled: bool,
    refused: Option<Refusal>,
    after: Words,
}

// What both calls answer, and what fire leaves in its buffer.
#[derive(Clone, Copy)]
struct Answers {
    tested: Result<bool, Refusal>,
    fired: Result<usize, Refusal>,
    buffer: [u32; 64],
}

impl Answers {
    fn ask(z: &Input) -> Answers {
        let net = z.net.all();
        let marking = z.marking.all();
        let binding = z.binding.all();
        let mut buffer = [0u32; 64];
        fill(&mut buffer);
        let tested = test(net, z.transition, marking, binding);
        let fired = fire_into(net, z.transition, marking, binding, &mut buffer, z.room);
        Answers {
            tested,
            fired,
            buffer,
        }
    }

    // Whether the buffer holds the new marking, or nothing where fire is refused, and the words after it stay.
    fn is_left(&self, words: &[u32]) -> bool {
        let n = self.fired.unwrap_or(0);
        same_words(&self.buffer, words, n) && first_changed(&self.buffer, n) == self.buffer.len()
    }
}

// What is due, and what the calls answered.
#[derive(Clone, Copy)]
struct Outcome {
    z: Input,
    plain: Plain,
    answers: Answers,
}

impl Outcome {
    // The refusal that is due from fire.
    fn refused(&self) -> Option<Refusal> {
        self.z.refused.or(self.plain.refused)
    }

    fn is_due(&self) -> bool {
        let tested = self.z.refused.map_or(Ok(self.plain.enabled), Err);
        let fired = self.refused().map_or(Ok(self.plain.after.length), Err);
        self.answers.tested == tested
            && self.answers.fired == fired
            && self.answers.is_left(&self.plain.after.words)
    }

    fn say_input(&self) {
        say_list(b"DIFFERENCE\nnet", self.z.net.all());
        say_list(b"\nmarking", self.z.marking.all());
        say_list(b"\nbinding", self.z.binding.all());
        say_number(b"\ntransition ", self.z.transition as u64);
        say_number(b" room ", self.z.room as u64);
    }

    fn say_due(&self) {
        say_number(b"\ndue: input refusal ", number_of(self.z.refused));
        say_number(b" at ", self.z.refused.map_or(0, |e| e.position()) as u64);
        say_number(b", state refusal ", number_of(self.plain.refused));
        say_list(b", words", self.plain.after.all());
        io::write_all(1, b"\n");
    }

    fn say_answers(&self) {
        say_test(self.answers.tested);
        say_fire(self.answers.fired, &self.answers.buffer);
        io::write_all(1, b"\n");
    }
}

// The number of a refusal, 0 for none.
fn number_of(refused: Option<Refusal>) -> u64 {
    refused.map_or(0, |e| u64::from(e.number()))
}

fn say_number(name: &[u8], n: u64) {
    io::write_all(1, name);
    io::print_decimal(1, n);
}

fn say_list(name: &[u8], words: &[u32]) {
    io::write_all(1, name);
    say_words(words);
}

// The cases by what fire has to answer, and whether one differed.
#[derive(Clone, Copy)]
struct Cases {
    tally: Tally,
    differs: bool,
}

impl Cases {
    // One more case; the first difference is printed in full.
    fn compare(&mut self, c: &Case) {
        let z = c.input();
        let o = Outcome {
            z,
            plain: c.fire_plainly(),
            answers: Answers::ask(&z),
        };
        self.count(&o);
        if !o.is_due() {
            self.differ(&o);
        }
    }

    fn count(&mut self, o: &Outcome) {
        self.tally.add(number_of(o.refused()) as usize, 1);
        self.tally
            .add_if(ENABLED, o.z.refused.is_none() && o.plain.enabled);
    }

    fn differ(&mut self, o: &Outcome) {
        if !self.differs {
            o.say_input();
            o.say_due();
            o.say_answers();
        }
        self.differs = true;
        self.tally.differ();
    }
}

fn samples(count: u32) -> Tally {
    let mut cases = Cases {
        tally: Tally::new(),
        differs: false,
    };
    let mut seed: u64 = 2026;
    for _ in 0..count {
        let c = Case::draw(seed);
        cases.compare(&c);
        seed = c.seed;
    }
    cases.tally
}

pub fn all() {
    heading(b"3000 drawn cases against plain firing on counts");
    let t = samples(3000);
    t.answers("written");
    t.line("enabled", ENABLED);
    t.end();
}
