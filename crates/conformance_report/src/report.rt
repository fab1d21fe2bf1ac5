// Lines of the output: the case, what test answers, what fire answers and what it leaves in the buffer.
use conformance_plain::build::front;
use conformance_plain::reading::get;
use firing::fire::fire;
use semantics::refusal::Refusal;
use testing::test::test;

pub fn say_refused(e: Refusal) {
    io::write_all(1, b"refused ");
    io::print_decimal(1, u64::from(e.number()));
    io::write_all(1, b" at ");
    io::print_decimal(1, e.position() as u64);
}

pub fn say_test(tested: Result<bool, Refusal>) {
    io::write_all(1, b" | test ");
    match tested {
        Ok(true) => {
            io::write_all(1, b"yes");
        }
        Ok(false) => {
            io::write_all(1, b"no");
        }
        Err(e) => say_refused(e),
    }
}

// A space and a word in hexadecimal.
fn say_word(w: u32) {
    io::write_all(1, b" ");
    io::print_hex(1, w as u64, 8);
}

pub fn say_words(words: &[u32]) {
    for w in words {
        say_word(*w);
    }
}

// The word that a buffer holds at a position before a call.
pub fn mark(i: usize) -> u32 {
    0x5A5A_0000 + (i % 0x1_0000) as u32
}

pub fn fill(buffer: &mut [u32]) {
    for (i, w) in buffer.iter_mut().enumerate() {
        *w = mark(i);
    }
}

// The first position from a start on whose word is not as before the call, or the length.
pub fn first_changed(buffer: &[u32], start: usize) -> usize {
    for i in start..buffer.len() {
        if buffer[i] != mark(i) {
            return i;
        }
    }
    buffer.len()
}

// Whether the first n words are equal, a word beyond the end being 0.
pub fn same_words(a: &[u32], b: &[u32], n: usize) -> bool {
    (0..n).all(|i| get(a, i) == get(b, i))
}

// Whether the first n words are zeros.
pub fn zeros(a: &[u32], n: usize) -> bool {
    front(a, n).iter().all(|w| *w == 0)
}

// Whether the words from a start to an end are as before the call.
pub fn stay(buffer: &[u32], start: usize, end: usize) -> bool {
    let part = front(buffer, end);
    first_changed(part, start) == part.len()
}

// Whether the words from a start on stay.
fn say_stays(buffer: &[u32], start: usize) {
    let i = first_changed(buffer, start);
    if i < buffer.len() {
        io::write_all(1, b" CHANGED at ");
        io::print_decimal(1, i as u64);
        return;
    }
    io::write_all(1, b" stays");
}

// Fire into the first words of a buffer.
pub fn fire_into(
    net: &[u32],
    transition: u32,
    marking: &[u32],
    binding: &[u32],
    buffer: &mut [u32],
    room: usize,
) -> Result<usize, Refusal> {
    if buffer.len() < room {
        return fire(net, transition, marking, binding, buffer);
    }
    fire(net, transition, marking, binding, &mut buffer[0..room])
}

fn say_unfired(e: Refusal, buffer: &[u32]) {
    say_refused(e);
    io::write_all(1, b", buffer");
    say_stays(buffer, 0);
}

pub fn say_fire(fired: Result<usize, Refusal>, buffer: &[u32]) {
    io::write_all(1, b" | fire ");
    match fired {
        Ok(n) => {
            io::write_all(1, b"wrote ");
            io::print_decimal(1, n as u64);
            io::write_all(1, b":");
            say_words(front(buffer, n));
            io::write_all(1, b", rest");
            say_stays(buffer, n);
        }
        Err(e) => say_unfired(e, buffer),
    }
}

// A case. The buffer is longer than the room, so that the words beyond the room are seen to stay too.
pub fn case(
    name: &[u8],
    net: &[u32],
    transition: u32,
    marking: &[u32],
    binding: &[u32],
    room: usize,
) {
    let mut buffer = [0u32; 64];
    fill(&mut buffer);
    io::write_all(1, name);
    say_test(test(net, transition, marking, binding));
    let f = fire_into(net, transition, marking, binding, &mut buffer, room);
    say_fire(f, &buffer);
    io::write_all(1, b"\n");
}

// A case for test alone.
pub fn test_case(name: &[u8], net: &[u32], transition: u32, marking: &[u32], binding: &[u32]) {
    io::write_all(1, name);
    say_test(test(net, transition, marking, binding));
    io::write_all(1, b"\n");
}

// A case for fire alone.
pub fn fire_case(
    name: &[u8],
    net: &[u32],
    transition: u32,
    marking: &[u32],
    binding: &[u32],
    room: usize,
) {
    let mut buffer = [0u32; 64];
    fill(&mut buffer);
    io::write_all(1, name);
    let f = fire_into(net, transition, marking, binding, &mut buffer, room);
    say_fire(f, &buffer);
    io::write_all(1, b"\n");
}

// A case with a long marking, and a room of 16,400 words: the length, the first word and the last two of the new marking.
pub fn long_case(name: &[u8], net: &[u32], marking: &[u32], binding: &[u32]) {
    let mut buffer = [0u32; 16400];
    fill(&mut buffer);
    io::write_all(1, name);
    say_test(test(net, 0, marking, binding));
    let f = fire_into(net, 0, marking, binding, &mut buffer, 16400);
    say_long(f, &buffer);
    io::write_all(1, b"\n");
}

// The two words before an end.
fn before(buffer: &[u32], end: usize) -> &[u32] {
    if buffer.len() < end {
        return buffer;
    }
    if end < 2 {
        return buffer;
    }
    &buffer[end - 2..end]
}

fn say_long(fired: Result<usize, Refusal>, buffer: &[u32]) {
    io::write_all(1, b" | fire ");
    match fired {
        Ok(n) => {
            io::write_all(1, b"wrote ");
            io::print_decimal(1, n as u64);
            io::write_all(1, b": from");
            say_words(front(buffer, 2));
            io::write_all(1, b" to");
            say_words(before(buffer, n));
            io::write_all(1, b", rest");
            say_stays(buffer, n);
        }
        Err(e) => say_unfired(e, buffer),
    }
}

// A heading.
pub fn heading(name: &[u8]) {
    io::write_all(1, b"\n== ");
    io::write_all(1, name);
    io::write_all(1, b"\n");
}
