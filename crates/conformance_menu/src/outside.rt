// Cases read from standard input: the examples of document 01 and outside cases, worked out by an independent brute-force implementation of it. They stand in the
// file stdin beside this folder, a line each, with bars between its fields: name; net; marking; transition, budget and room; refusal, position, N and W; the
// words of the list. Each is held against menu; where the input is accepted, the lister and the count of tries are held against menu too.
use crate::case_kinds::{CASES, OVER};
use crate::compare::{Call, Compared, Found, Input, Refused};
use crate::drawn::compare_net;
use conformance_lister::lister::list_all;
use conformance_plain::build::{front, write};
use conformance_plain::counts::{MOST_CELLS, counts_of, first_cell};
use conformance_plain::reading::{Shape, place_count, shape_of};
use conformance_plain::text::{field, part};
use conformance_plain::tuples::{MOST, tuples};
use conformance_report::report::heading;
use semantics::Listed;

// Too many bindings, or too many colours, for the lister.
fn is_large(s: Shape<'_>) -> bool {
    MOST < tuples(s.net, s.ranges, s.variables)
        || MOST_CELLS < first_cell(s.net, place_count(s.net))
}

// The lister and the count of tries on an accepted input.
fn hold(t: &mut Compared, input: Input<'_>) {
    let mut list = [0; 16400];
    let s = shape_of(input.net, input.transition);
    if is_large(s) {
        t.tally.add(OVER, 1);
        return;
    }
    let l = list_all(s, &counts_of(input.net, input.marking), &mut list);
    compare_net(t, input, &list, l, false);
}

// A call with its numbers.
fn call_of<'a>(net: &'a [u32], marking: &'a [u32], text: &[u8]) -> Call<'a> {
    let mut numbers = [0; 3];
    write(&mut numbers, 0, text);
    let [transition, budget, room] = numbers;
    Call {
        input: Input {
            net,
            transition,
            marking,
        },
        budget,
        room: room as usize,
    }
}

// The answer of these numbers, with the words that are due.
fn due_of<'a>(text: &[u8], words: &'a [u32]) -> Result<Found<'a>, Refused> {
    let mut numbers = [0; 4];
    write(&mut numbers, 0, text);
    let [number, position, bindings, tries] = numbers;
    if number == 0 {
        let listed = Listed { bindings, tries };
        return Ok(Found { listed, words });
    }
    Err(Refused {
        number,
        position: position as usize,
    })
}

// Whether an answer is a refusal for the input.
fn is_input_refused(d: Result<Found<'_>, Refused>) -> bool {
    d.is_err_and(|r| r.number < 10)
}

// One case with its net and marking, from the other fields of its line.
fn hold_case(t: &mut Compared, net: &[u32], marking: &[u32], line: &[u8]) {
    let mut words = [0; 64];
    let end = write(&mut words, 0, field(line, 5));
    let c = call_of(net, marking, field(line, 3));
    let d = due_of(field(line, 4), front(&words, end));
    t.compare(c, d);
    if !is_input_refused(d) {
        hold(t, c.input);
    }
}

// One case from its line.
fn hold_line(t: &mut Compared, line: &[u8]) {
    let mut net = [0; 128];
    let mut marking = [0; 64];
    let n = write(&mut net, 0, field(line, 1));
    let m = write(&mut marking, 0, field(line, 2));
    hold_case(t, front(&net, n), front(&marking, m), line);
}

// Each line of a text.
fn hold_lines(text: &[u8]) -> Compared {
    let mut t = Compared::new();
    for line in text.split_inclusive(|b| *b == b'\n') {
        hold_line(&mut t, line.strip_suffix(b"\n").unwrap_or(line));
    }
    t
}

pub fn all() {
    let mut text = [0; 65536];
    let n = io::read_full(0, &mut text);
    heading(b"Examples of document 01 and outside cases");
    let t = hold_lines(part(&text, 0, n)).tally;
    t.lines(&["accepted", "too large to list"], CASES);
    t.answers("found");
    t.end();
}
