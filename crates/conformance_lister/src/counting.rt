// The count of tries, level by level: a queue of arrivals, each the number of an element and a partial binding, in nine words. An arrival is taken from the
// front, its tries are counted, and those that go on are put at the end; one that goes on from the last element is a full binding, which stays in the queue.
use conformance_plain::build::put;
use conformance_plain::reading::{
    Shape, components, get, in_range, kind, next_entry, place_of, skip, value_above, values,
};
use conformance_plain::slots::Slots;
use conformance_plain::tuples::put_slots;
use conformance_plain::value::evaluate;

// A variable that is not bound takes a value, which has to be in its range.
fn bind(s: Shape<'_>, b: Slots, v: u32, w: u32) -> Option<Slots> {
    in_range(s.range(v), w).then_some(b.with(v, 0xC000_0000 + w % 0x4000))
}

// One component of a colour against the first word of its expression: the binding that the try goes on with.
fn agree_one(s: Shape<'_>, b: Slots, first: u32, w: u32) -> Option<Slots> {
    match kind(first) {
        7 => (first % 0x4000 == w % 0x4000).then_some(b),
        8 => match b.slot(first % 8) {
            Some(old) => (old % 0x4000 == w % 0x4000).then_some(b),
            None => bind(s, b, first % 8, w),
        },
        _ => Some(b),
    }
}

// The colour at a position of the marking against the component expressions at a position of the net.
fn agree(
    s: Shape<'_>,
    marking: &[u32],
    colour: usize,
    first: usize,
    count: u32,
    b: Slots,
) -> Option<Slots> {
    let mut c = b;
    let mut part = first;
    for i in 0..count as usize {
        let w = get(marking, colour.wrapping_add(i));
        c = agree_one(s, c, get(s.net, part), w)?;
        part = skip(s.net, part);
    }
    Some(c)
}

// A variable takes a value, which has to be one of 14 bits and in its range.
fn solve_with(s: Shape<'_>, b: Slots, v: u32, x: i32) -> Option<Slots> {
    if x < -0x2000 || 0x2000 <= x {
        return None;
    }
    bind(s, b, v, x.cast_unsigned())
}

// The equation at a position, solved for its left side or for its right one.
fn solve(s: Shape<'_>, b: Slots, conjunct: usize) -> Option<Slots> {
    let left = conjunct.wrapping_add(1);
    let right = skip(s.net, left);
    if b.is_new_variable(s.net, left) {
        return solve_with(s, b, get(s.net, left) % 8, evaluate(s.net, right, b)?);
    }
    solve_with(s, b, get(s.net, right) % 8, evaluate(s.net, left, b)?)
}

// A partial binding that arrives at an element, by its number; a full one after the last.
#[derive(Clone, Copy)]
pub struct Arrival {
    pub element: u32,
    pub binding: Slots,
}

// The arrival at a position of the queue.
pub fn arrival_at(queue: &[u32], at: usize) -> Arrival {
    Arrival {
        element: get(queue, at),
        binding: Slots::at(queue, at.wrapping_add(1)),
    }
}

// The queue's next free position, how many tries were counted, and whether a match and a solve was in vain.
#[derive(Clone, Copy)]
pub struct Work {
    pub tail: usize,
    pub tries: u32,
    pub match_lost: bool,
    pub solve_lost: bool,
}

// A count that is under way. What puts arrivals answers nothing where the queue is too short.
#[derive(Drop)]
struct Counter<'a> {
    s: Shape<'a>,
    marking: &'a [u32],
    queue: &'a mut [u32],
    work: Work,
}

impl Counter<'_> {
    // An arrival put at the end of the queue.
    fn put_arrival(&mut self, element: u32, b: Slots) -> Option<()> {
        let at = put(self.queue, self.work.tail, element);
        let end = put_slots(self.queue, at, b, 8);
        if end != self.work.tail.wrapping_add(9) {
            return None;
        }
        self.work.tail = end;
        Some(())
    }

    // A try of an arrival, with the binding that goes on.
    fn go_on(&mut self, a: Arrival, t: Option<Slots>) -> Option<()> {
        self.work.tries = self.work.tries.wrapping_add(1);
        match t {
            Some(b) => self.put_arrival(a.element.wrapping_add(1), b),
            None => Some(()),
        }
    }

    // A try of a match of the arc at a position with the entry at a position.
    fn match_one(&mut self, a: Arrival, arc: usize, entry: usize) -> Option<()> {
        let net = self.s.net;
        let n = components(net, place_of(net, arc));
        let first = skip(net, arc.wrapping_add(1));
        let colour = entry.wrapping_add(1);
        let t = agree(self.s, self.marking, colour, first, n, a.binding);
        if t.is_none() {
            self.work.match_lost = true;
        }
        self.go_on(a, t)
    }

    // A match of the arc at a position.
    fn match_all(&mut self, a: Arrival, arc: usize) -> Option<()> {
        let net = self.s.net;
        let marking = self.marking;
        let place = place_of(net, arc);
        let words = components(net, place) as usize % 8 + 1;
        let mut from = 0;
        // An entry has a word at least.
        for _ in marking {
            let Some(entry) = next_entry(net, marking, from, place) else {
                break;
            };
            self.match_one(a, arc, entry)?;
            from = entry.wrapping_add(words);
        }
        Some(())
    }

    // A range of a variable.
    fn range_all(&mut self, a: Arrival, v: u32) -> Option<()> {
        let range = self.s.range(v);
        for above in 0..values(range) {
            let b = a.binding.with(v, value_above(range, above));
            self.go_on(a, Some(b))?;
        }
        Some(())
    }

    fn solve_one(&mut self, a: Arrival, conjunct: usize) -> Option<()> {
        let t = solve(self.s, a.binding, conjunct);
        if t.is_none() {
            self.work.solve_lost = true;
        }
        self.go_on(a, t)
    }

    // The tries of an arrival that was taken from the queue's front.
    fn take_arrival(&mut self, a: Arrival) -> Option<()> {
        if self.s.elements <= a.element {
            return Some(());
        }
        let e = self.s.element(a.element);
        let number = e % 256;
        match e / 256 % 4 {
            0 => self.match_all(a, self.s.input(number)),
            1 => self.solve_one(a, self.s.conjunct(number)),
            _ => self.range_all(a, number),
        }
    }
}

// All tries of a transition's plan, where they fit the queue; the empty binding arrives once at the first element.
pub fn count_tries(s: Shape<'_>, marking: &[u32], queue: &mut [u32]) -> Option<Work> {
    let words = queue.len();
    let mut c = Counter {
        s,
        marking,
        queue,
        work: Work {
            tail: 0,
            tries: 0,
            match_lost: false,
            solve_lost: false,
        },
    };
    c.put_arrival(0, Slots::UNBOUND)?;
    // An arrival has a word at least.
    let mut head = 0;
    for _ in 0..words {
        if head == c.work.tail {
            break;
        }
        let a = arrival_at(c.queue, head);
        head = head.wrapping_add(9);
        c.take_arrival(a)?;
    }
    Some(c.work)
}
