// What a case has in it, counted by kind.
use crate::compare::Input;
use conformance_draw::plans::after_element;
use conformance_lister::counting::{Arrival, Work, arrival_at};
use conformance_lister::flow::is_enabled;
use conformance_lister::lister::Listing;
use conformance_plain::build::front;
use conformance_plain::counts::{Counts, counts_of};
use conformance_plain::reading::{
    Shape, components, get, kind, next_entry, place_of, shape_of, signed, skip,
};
use conformance_plain::slots::Slots;
use conformance_report::tally::Tally;

// Kinds, in the order in which they are printed. The first are transitions with their markings.
pub const CASES: usize = 17;

pub const OVER: usize = 18;

pub const TWO_PLANS: usize = 19;

pub const SOME: usize = 20;

pub const LISTED: usize = 21;

pub const TRIES: usize = 22;

pub const NO_VARIABLES: usize = 23;

pub const MATCH_FIRST: usize = 24;

pub const SOLVE_FIRST: usize = 25;

pub const RANGE_FIRST: usize = 26;

pub const RANGE_ONLY: usize = 27;

pub const REPEATED: usize = 28;

pub const CONSTANT: usize = 29;

pub const OPERATOR: usize = 30;

pub const EMPTY: usize = 31;

pub const MATCH_LOST: usize = 32;

pub const SOLVE_LOST: usize = 33;

pub const ZERO: usize = 34;

pub const VARYING: usize = 35;

pub const NEGATIVE: usize = 36;

pub const AGAIN: usize = 37;

pub const UNORDERED: usize = 38;

pub const BESIDE: usize = 39;

// What stands in the arcs of a transition, and in its plan.
#[derive(Clone, Copy)]
struct Found {
    repeated: bool,
    constant: bool,
    operator: bool,
    empty: bool,
    zero: bool,
    varying: bool,
    only: bool,
}

fn also_bound(b: Slots, w: u32) -> Slots {
    if kind(w) == 8 {
        return b.with(w % 8, 0xC000_0000);
    }
    b
}

impl Found {
    const NOTHING: Found = Found {
        repeated: false,
        constant: false,
        operator: false,
        empty: false,
        zero: false,
        varying: false,
        only: true,
    };

    // A component of a matched arc, by its first word.
    fn component(&mut self, w: u32, b: Slots) {
        match kind(w) {
            7 => self.constant = true,
            8 => self.repeated |= b.slot(w % 8).is_some(),
            _ => self.operator = true,
        }
    }

    // The components of a matched arc.
    fn matched(&mut self, net: &[u32], arc: usize, before: Slots) {
        let mut b = before;
        let mut at = skip(net, arc.wrapping_add(1));
        for _ in 0..components(net, place_of(net, arc)) {
            let w = get(net, at);
            self.component(w, b);
            b = also_bound(b, w);
            at = skip(net, at);
        }
    }

    fn element(&mut self, s: Shape<'_>, marking: &[u32], b: Slots, e: u32) {
        let sort = e / 256 % 4;
        self.only &= sort == 2;
        if sort == 0 {
            let arc = s.input(e % 256);
            self.empty |= next_entry(s.net, marking, 0, place_of(s.net, arc)).is_none();
            self.matched(s.net, arc, b);
        }
    }

    // The elements of a plan.
    fn plan(&mut self, s: Shape<'_>, marking: &[u32]) {
        let mut b = Slots::UNBOUND;
        for number in 0..s.elements {
            let e = s.element(number);
            self.element(s, marking, b, e);
            b = after_element(s, b, e);
        }
    }

    // The coefficients of the input arcs.
    fn coefficients(&mut self, s: Shape<'_>) {
        for number in 0..s.inputs {
            let w = get(s.net, s.input(number).wrapping_add(1));
            if kind(w) != 7 {
                self.varying = true;
            } else if w % 0x4000 == 0 {
                self.zero = true;
            }
        }
    }
}

// Whether a listed binding has a negative value.
fn has_negative(list: &[u32], n: usize) -> bool {
    front(list, n).iter().any(|w| signed(*w) < 0)
}

fn count_plan(t: &mut Tally, s: Shape<'_>, only: bool) {
    if s.elements == 0 {
        t.add(NO_VARIABLES, 1);
        return;
    }
    let first = match s.element(0) / 256 % 4 {
        0 => MATCH_FIRST,
        1 => SOLVE_FIRST,
        _ => RANGE_FIRST,
    };
    t.add(first, 1);
    t.add_if(RANGE_ONLY, only);
}

fn count_arcs(t: &mut Tally, f: Found) {
    t.add_if(REPEATED, f.repeated);
    t.add_if(CONSTANT, f.constant);
    t.add_if(OPERATOR, f.operator);
    t.add_if(EMPTY, f.empty);
    t.add_if(ZERO, f.zero);
    t.add_if(VARYING, f.varying);
}

// The enabled bindings that the tries met so far: how many, whether they rose, and the last one.
#[derive(Clone, Copy)]
struct Met {
    count: u32,
    rising: bool,
    last: Option<Slots>,
}

// Whether a first row is before a second.
fn before(a: Slots, b: Slots) -> bool {
    a.words.map(signed) < b.words.map(signed)
}

impl Met {
    // One more enabled binding.
    fn add(&mut self, b: Slots) {
        self.count = self.count.wrapping_add(1);
        self.rising &= self.last.is_none_or(|last| before(last, b));
        self.last = Some(b);
    }

    // An arrival in the queue of the tries.
    fn meet(&mut self, s: Shape<'_>, c: &Counts, a: Arrival) {
        if s.elements <= a.element && is_enabled(s, c, a.binding) {
            self.add(a.binding);
        }
    }
}

// The enabled bindings among all arrivals.
fn meet_all(s: Shape<'_>, c: &Counts, queue: &[u32], w: Work) -> Met {
    let mut m = Met {
        count: 0,
        rising: true,
        last: None,
    };
    for at in (0..w.tail).step_by(9) {
        m.meet(s, c, arrival_at(queue, at));
    }
    m
}

fn count_work(t: &mut Tally, w: Work, m: Met, l: Listing) {
    t.add_if(MATCH_LOST, w.match_lost);
    t.add_if(SOLVE_LOST, w.solve_lost);
    t.add_if(AGAIN, l.count < m.count);
    t.add_if(UNORDERED, !m.rising);
    t.add(TRIES, w.tries);
}

// What stands in the plan and in the arcs of a transition.
fn count_found(t: &mut Tally, s: Shape<'_>, marking: &[u32]) {
    let mut f = Found::NOTHING;
    f.plan(s, marking);
    f.coefficients(s);
    t.add(CASES, 1);
    count_plan(t, s, f.only);
    count_arcs(t, f);
}

// The list, and whether the net has another transition.
fn count_list(t: &mut Tally, net: &[u32], list: &[u32], l: Listing) {
    t.add_if(NEGATIVE, has_negative(list, l.words));
    t.add_if(SOME, l.count != 0);
    t.add_if(BESIDE, 1 < get(net, 0) % 256);
    t.add(LISTED, l.count);
}

// A transition of a net with a marking, its list and its tries.
pub fn count_kinds(t: &mut Tally, i: Input<'_>, list: &[u32], l: Listing, queue: &[u32], w: Work) {
    let s = shape_of(i.net, i.transition);
    let met = meet_all(s, &counts_of(i.net, i.marking), queue, w);
    count_work(t, w, met, l);
    count_found(t, s, i.marking);
    count_list(t, i.net, list, l);
}
