// Outside cases of run, worked out by an independent brute-force implementation of document 01. They stand in the file stdin beside this folder, a line each,
// with bars between its fields: name; net; buffer; budget, m, and the lengths of spare and menu; picks; done, refusal, position and length; the buffer
// afterwards; for spare and for menu 1 where it is cleared and 0 where it stays. Each is held against run, and against the plain run where the net is accepted.
use crate::compare::{Case, Compared, Due, Told};
use conformance_picks::plain::{Given, TOO_LARGE, clears, run_plainly};
use conformance_plain::build::{copy, front, write};
use conformance_plain::text::{field, part};
use conformance_report::report::{fill, heading, same_words};

// Cases that were held against the plain run.
const PLAIN: usize = 24;

// Whether the plain run answers what is due.
fn holds_plainly(c: Case<'_>, d: Due<'_>) -> bool {
    let mut buffer = [0; 1600];
    copy(c.before, &mut buffer, 1600);
    let (told, cleared) = match run_plainly(c.net, c.given, &mut buffer, c.picks) {
        Ok(o) => (Told::from(o), clears(o.stopped)),
        Err(o) => (
            Told {
                number: TOO_LARGE,
                ..Told::from(o)
            },
            true,
        ),
    };
    told == d.told && same_words(&buffer, d.after, 1600) && cleared == d.cleared
}

// Whether a run is refused for its net.
fn is_net_refused(number: u32) -> bool {
    0 < number && number < 6
}

// One case.
fn hold(t: &mut Compared, c: Case<'_>, d: Due<'_>) {
    t.compare(c, d);
    if is_net_refused(d.told.number) {
        return;
    }
    t.tally.add(PLAIN, 1);
    if !holds_plainly(c, d) {
        io::write_all(1, b"DIFFERENCE of the plain run\n");
        t.differ();
    }
}

// The numbers of a call, with the buffer's length.
fn given_of(text: &[u8], length: usize) -> Given {
    let mut numbers = [0; 4];
    write(&mut numbers, 0, text);
    let [budget, m, spare, menu] = numbers;
    Given {
        budget,
        m: m as usize,
        buffer: length,
        spare: spare as usize,
        menu: menu as usize,
    }
}

// The numbers of an answer.
fn told_of(text: &[u8]) -> Told {
    let mut numbers = [0; 4];
    write(&mut numbers, 0, text);
    let [done, number, position, length] = numbers;
    Told {
        done: done as usize,
        number,
        position: position as usize,
        length: length as usize,
    }
}

// Whether both numbers are 1: spare and menu are cleared.
fn is_cleared(text: &[u8]) -> bool {
    let mut numbers = [0; 2];
    write(&mut numbers, 0, text);
    numbers == [1, 1]
}

// The words of a buffer, which holds something else after them.
fn write_filled(words: &mut [u32], text: &[u8]) -> usize {
    fill(words);
    write(words, 0, text)
}

// One case with its net and picks, from the other fields of its line.
fn hold_case(t: &mut Compared, net: &[u32], picks: &[u32], line: &[u8]) {
    let mut before = [0; 1600];
    let mut after = [0; 1600];
    let length = write_filled(&mut before, field(line, 2));
    write_filled(&mut after, field(line, 6));
    let c = Case {
        net,
        given: given_of(field(line, 3), length),
        before: &before,
        picks,
    };
    let d = Due {
        told: told_of(field(line, 5)),
        after: &after,
        cleared: is_cleared(field(line, 7)),
    };
    hold(t, c, d);
}

// One case from its line.
fn hold_line(t: &mut Compared, line: &[u8]) {
    let mut net = [0; 128];
    let mut picks = [0; 16];
    let n = write(&mut net, 0, field(line, 1));
    let p = write(&mut picks, 0, field(line, 4));
    hold_case(t, front(&net, n), front(&picks, p), line);
}

// Each line of a text.
fn hold_lines(text: &[u8]) -> Compared {
    let mut t = Compared::new();
    for line in text.split_inclusive(|b| *b == b'\n') {
        hold_line(&mut t, line.strip_suffix(b"\n").unwrap_or(line));
    }
    t
}

pub fn all() {
    let mut text = [0; 65536];
    let n = io::read_full(0, &mut text);
    heading(b"Outside cases");
    let t = hold_lines(part(&text, 0, n)).tally;
    t.line("also held against the plain run", PLAIN);
    t.answers("no refusal");
    t.end();
}
