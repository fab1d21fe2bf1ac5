// Plans drawn for a transition, each element one that document 01 says is fit.
use crate::draw::{Pen, next, pick};
use conformance_plain::build::put;
use conformance_plain::reading::{Shape, components, get, kind, place_of, shape_of, skip};
use conformance_plain::slots::Slots;

// Binds a variable, by the slot of value 0.
fn take(b: Slots, v: u32) -> Slots {
    b.with(v, 0xC000_0000)
}

// Binds the variable that stands alone at a position, if one does.
fn take_lone(net: &[u32], at: usize, b: Slots) -> Slots {
    let w = get(net, at);
    if kind(w) == 8 {
        return take(b, w % 8);
    }
    b
}

// Binds the variables that stand alone as components of the arc at a position.
fn take_components(net: &[u32], arc: usize, b: Slots) -> Slots {
    let mut c = b;
    let mut at = skip(net, arc.wrapping_add(1));
    for _ in 0..components(net, place_of(net, arc)) {
        c = take_lone(net, at, c);
        at = skip(net, at);
    }
    c
}

// Whether every variable of an expression is bound.
fn is_bound(net: &[u32], start: usize, b: Slots) -> bool {
    (start..skip(net, start)).all(|at| !b.is_new_variable(net, at))
}

// The arc at a position has a CONSTANT of at least 1 for its coefficient.
fn is_constant(net: &[u32], arc: usize) -> bool {
    let w = get(net, arc.wrapping_add(1));
    kind(w) == 7 && 0 < w % 0x4000 && w % 0x4000 < 0x2000
}

// The bound variables after a match; as they were where it is unfit.
fn after_match(s: Shape<'_>, b: Slots, number: u32) -> Slots {
    if s.inputs <= number {
        return b;
    }
    let arc = s.input(number);
    if is_constant(s.net, arc) {
        return take_components(s.net, arc, b);
    }
    b
}

// The same of a solve.
fn after_solve(s: Shape<'_>, b: Slots, number: u32) -> Slots {
    if s.conjuncts <= number {
        return b;
    }
    let conjunct = s.conjunct(number);
    if get(s.net, conjunct) % 4 != 0 {
        return b;
    }
    let left = conjunct.wrapping_add(1);
    let right = skip(s.net, left);
    if b.is_new_variable(s.net, left) && is_bound(s.net, right, b) {
        return take_lone(s.net, left, b);
    }
    if b.is_new_variable(s.net, right) && is_bound(s.net, left, b) {
        return take_lone(s.net, right, b);
    }
    b
}

// The same of a range.
fn after_range(s: Shape<'_>, b: Slots, number: u32) -> Slots {
    if s.variables <= number {
        return b;
    }
    take(b, number)
}

// The bound variables after an element; as they were where it is unfit.
pub fn after_element(s: Shape<'_>, b: Slots, e: u32) -> Slots {
    match e / 256 % 4 {
        0 => after_match(s, b, e % 256),
        1 => after_solve(s, b, e % 256),
        _ => after_range(s, b, e % 256),
    }
}

// The sort of an element, by the way of a plan: ranges only, matches before all, solves before all, or any.
fn sort_of(way: u32, k: u32) -> u32 {
    match way {
        0 => 2,
        1..=3 => {
            if k < 9 {
                return 0;
            }
            k % 3
        }
        4..=6 => {
            if k < 9 {
                return 1;
            }
            k % 3
        }
        _ => k % 3,
    }
}

// The first variable that is not bound.
fn first_new(b: Slots) -> u32 {
    (0..8).find(|v| b.slot(*v).is_none()).unwrap_or(0)
}

// An element, and the state of the sequence.
#[derive(Clone, Copy)]
struct Choice {
    element: u32,
    seed: u64,
}

// An element of a sort, that names an input arc, a conjunct or a variable.
fn element_of(s: Shape<'_>, sort: u32, seed: u64) -> u32 {
    match sort {
        0 => 0xA000_0000 + pick(seed, s.inputs) % 8,
        1 => 0xA000_0100 + pick(seed, s.conjuncts) % 8,
        _ => 0xA000_0200 + pick(seed, s.variables) % 8,
    }
}

// A fit element: one of sixteen drawn, or else a range.
fn choose(s: Shape<'_>, b: Slots, way: u32, seed: u64) -> Choice {
    let mut state = seed;
    for _ in 0..16 {
        let sort = next(state);
        state = next(sort);
        let element = element_of(s, sort_of(way, pick(sort, 12)), state);
        if b.bound() < after_element(s, b, element).bound() {
            return Choice {
                element,
                seed: state,
            };
        }
    }
    Choice {
        element: 0xA000_0200 + first_new(b) % 8,
        seed: state,
    }
}

// A plan: its elements and their number, and the state of the sequence.
#[derive(Clone, Copy)]
struct Plan {
    elements: [u32; 8],
    count: usize,
    seed: u64,
}

// A plan of a transition.
fn plan_of(s: Shape<'_>, way: u64) -> Plan {
    let mut b = Slots::UNBOUND;
    let mut p = Plan {
        elements: [0; 8],
        count: 0,
        seed: way,
    };
    for i in 0..8 {
        if b.bound() == s.variables as usize {
            break;
        }
        let c = choose(s, b, pick(way, 10), p.seed);
        b = after_element(s, b, c.element);
        p.elements[i] = c.element;
        p.count = i + 1;
        p.seed = c.seed;
    }
    p
}

// A plan put after the words of a transition that has none; its number of elements goes into the TRANSITION word.
pub fn draw_plan(d: &mut Pen<'_>, transition: u32) {
    let way = next(d.seed);
    let s = shape_of(d.words, transition);
    let at = s.at;
    let p = plan_of(s, way);
    for e in p.elements.iter().take(p.count) {
        d.word(*e);
    }
    d.seed = p.seed;
    count_elements(d.words, at, p.count);
}

fn count_elements(net: &mut [u32], at: usize, count: usize) {
    let w = get(net, at) % 0x1_0000;
    put(net, at, 0x4000_0000 + (count % 16) as u32 * 0x1_0000 + w);
}
