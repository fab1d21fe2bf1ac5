// The call menu held against what is due, and the first difference in full.
use conformance_plain::build::front;
use conformance_report::report::{fill, same_words, say_words, stay, zeros};
use conformance_report::tally::Tally;
use menus::menu::menu;
use semantics::Listed;
use semantics::refusal::Refusal;

// A transition of a net, with a marking.
#[derive(Clone, Copy)]
pub struct Input<'a> {
    pub net: &'a [u32],
    pub transition: u32,
    pub marking: &'a [u32],
}

// A call of menu.
#[derive(Clone, Copy)]
pub struct Call<'a> {
    pub input: Input<'a>,
    pub budget: u32,
    pub room: usize,
}

// A refusal in the numbers that a caller is told.
#[derive(Clone, Copy, PartialEq, Eq)]
pub struct Refused {
    pub number: u32,
    pub position: usize,
}

impl From<Refusal> for Refused {
    fn from(r: Refusal) -> Refused {
        Refused {
            number: r.number(),
            position: r.position(),
        }
    }
}

// N and W, and the words of the list.
#[derive(Clone, Copy)]
pub struct Found<'a> {
    pub listed: Listed,
    pub words: &'a [u32],
}

// What is due under a budget and a room, of an accepted input where this is found.
fn due_under(f: Found<'_>, budget: u32, room: usize) -> Result<Found<'_>, Refusal> {
    if budget < f.listed.tries {
        return Err(Refusal::OverBudget);
    }
    if 16383 < f.listed.bindings || room < f.words.len() {
        return Err(Refusal::OverMenu);
    }
    Ok(f)
}

// The first words of a buffer, or all where there are fewer.
fn first(buffer: &mut [u32], n: usize) -> &mut [u32] {
    let end = n.min(buffer.len());
    &mut buffer[..end]
}

// How far a buffer is looked at: some words beyond the room.
fn reach(room: usize) -> usize {
    room.wrapping_add(8)
}

// What menu answers, and what it leaves in a buffer.
fn ask(c: Call<'_>, buffer: &mut [u32]) -> Result<Listed, Refusal> {
    fill(first(buffer, reach(c.room)));
    let i = c.input;
    menu(
        i.net,
        i.transition,
        i.marking,
        c.budget,
        first(buffer, c.room),
    )
}

// Whether N and W are those that are due, the words those of the list, and the words beyond as before.
fn is_found(l: Listed, f: Found<'_>, room: usize, buffer: &[u32]) -> bool {
    let n = f.words.len();
    l == f.listed && same_words(buffer, f.words, n) && stay(buffer, n, reach(room))
}

// Whether a refusal is the one that is due, and the buffer left as it has to be: zeros where the refusal is for the state, and as before for any other.
fn is_refused(e: Refusal, r: Refused, room: usize, buffer: &[u32]) -> bool {
    let zeroed = if r.number < 10 { 0 } else { room };
    Refused::from(e) == r && zeros(buffer, zeroed) && stay(buffer, zeroed, reach(room))
}

fn is_due(
    answer: Result<Listed, Refusal>,
    d: Result<Found<'_>, Refused>,
    room: usize,
    buffer: &[u32],
) -> bool {
    match (answer, d) {
        (Ok(l), Ok(f)) => is_found(l, f, room, buffer),
        (Err(e), Err(r)) => is_refused(e, r, room, buffer),
        _ => false,
    }
}

fn say_number(name: &[u8], n: u64) {
    io::write_all(1, name);
    io::print_decimal(1, n);
}

fn say_list(name: &[u8], words: &[u32]) {
    io::write_all(1, name);
    say_words(words);
}

fn say_listed(l: Listed) {
    say_number(b"N ", l.bindings as u64);
    say_number(b" W ", l.tries as u64);
}

fn say_refused(r: Refused) {
    say_number(b"refused ", r.number as u64);
    say_number(b" at ", r.position as u64);
}

fn say_call(c: Call<'_>) {
    say_list(b"DIFFERENCE\nnet", c.input.net);
    say_list(b"\nmarking", c.input.marking);
    say_number(b"\ntransition ", c.input.transition as u64);
    say_number(b" budget ", c.budget as u64);
    say_number(b" room ", c.room as u64);
}

fn say_due(d: Result<Found<'_>, Refused>) {
    io::write_all(1, b"\ndue: ");
    match d {
        Ok(f) => {
            say_listed(f.listed);
            say_list(b", words", f.words);
        }
        Err(r) => say_refused(r),
    }
}

fn say_answer(answer: Result<Listed, Refusal>, buffer: &[u32], room: usize) {
    io::write_all(1, b"\nmenu: ");
    match answer {
        Ok(l) => say_listed(l),
        Err(e) => say_refused(Refused::from(e)),
    }
    say_list(b", buffer", front(buffer, reach(room)));
    io::write_all(1, b"\n");
}

// The budgets and rooms of six calls: plenty, just enough, none, a budget that is one less than W, a room that is a word too short, and both of these.
fn limits(f: Found<'_>) -> [Option<(u32, usize)>; 6] {
    let tries = f.listed.tries;
    let words = f.words.len();
    let plenty = words.wrapping_add(5);
    let less = tries.checked_sub(1);
    let short = words.checked_sub(1);
    [
        Some((0xFFFF_FFFF, plenty)),
        Some((tries, words)),
        Some((0, 0)),
        less.map(|budget| (budget, plenty)),
        short.map(|room| (tries, room)),
        less.zip(short),
    ]
}

// The calls that were compared, by kind, and whether there was a difference.
#[derive(Clone, Copy)]
pub struct Compared {
    pub tally: Tally,
    differs: bool,
}

impl Compared {
    pub fn new() -> Compared {
        Compared {
            tally: Tally::new(),
            differs: false,
        }
    }

    // One more difference; answers whether it is the first.
    fn differ(&mut self) -> bool {
        let is_first = !self.differs;
        self.differs = true;
        self.tally.differ();
        is_first
    }

    // One call of menu against the answer that is due; a first difference is printed in full.
    pub fn compare(&mut self, c: Call<'_>, d: Result<Found<'_>, Refused>) {
        let mut buffer = [0; 16400];
        let answer = ask(c, &mut buffer);
        self.tally.add(d.err().map_or(0, |r| r.number as usize), 1);
        if is_due(answer, d, c.room, &buffer) {
            return;
        }
        if self.differ() {
            say_call(c);
            say_due(d);
            say_answer(answer, &buffer, c.room);
        }
    }

    // Calls on an accepted input, where this is found, by budget and room.
    pub fn compare_all(&mut self, input: Input<'_>, f: Found<'_>) {
        for (budget, room) in limits(f).into_iter().flatten() {
            let c = Call {
                input,
                budget,
                room,
            };
            self.compare(c, due_under(f, budget, room).map_err(Refused::from));
        }
    }
}
