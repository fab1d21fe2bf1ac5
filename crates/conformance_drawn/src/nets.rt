// Nets drawn from the sequence, and what their arcs move and whether their guard holds under a binding: places 0 with colours (-1) to (2), 1 with (0, -1) to
// (1, 1), 2 with (3) and (4); one transition of variables x from -1 to 2 and y from 0 to 3.
use crate::draw::{Binding, coefficient, component, draw_binding, expression};
use crate::plain::{Flow, Moved};
use crate::words::Words;
use conformance_draw::draw::Pen;
use conformance_plain::build::write;
use conformance_plain::counts::cell_of;
use conformance_plain::reading::{get, ranges_at};

// The colour of an arc's place: one component, or two at place 1.
fn colour(d: &mut Pen<'_>, b: Binding, place: u32) -> Option<[i32; 8]> {
    let ranges = ranges_at(d.words, place);
    let first = get(d.words, ranges);
    let second = get(d.words, ranges.wrapping_add(1));
    let v = component(d, b, first);
    if place != 1 {
        return Some([v?, 0, 0, 0, 0, 0, 0, 0]);
    }
    let w = component(d, b, second);
    Some([v?, w?, 0, 0, 0, 0, 0, 0])
}

// What an arc says, where all its expressions have values.
fn arc(d: &mut Pen<'_>, b: Binding) -> Option<Flow> {
    let place = d.draw(3);
    d.word(0x5000_0000 + place % 4);
    let n = coefficient(d, b);
    let c = colour(d, b, place);
    Some(Flow {
        coefficient: n?,
        cell: cell_of(d.words, place, &c?),
    })
}

fn arcs(d: &mut Pen<'_>, b: Binding, count: u32) -> Moved {
    let mut moved = Moved::NOTHING;
    for _ in 0..count {
        moved.add(arc(d, b));
    }
    moved
}

fn related(relation: u32, a: i32, b: i32) -> bool {
    match relation {
        0 => a == b,
        1 => a != b,
        2 => a < b,
        _ => a <= b,
    }
}

// Whether a conjunct holds.
fn conjunct(d: &mut Pen<'_>, b: Binding) -> bool {
    let relation = d.draw(4);
    d.word(0x6000_0000 + relation % 4);
    let left = expression(d, b);
    let right = expression(d, b);
    left.zip(right)
        .is_some_and(|(l, r)| related(relation, l, r))
}

// Whether all conjuncts hold.
fn conjuncts(d: &mut Pen<'_>, b: Binding, count: u32) -> bool {
    let mut holds = true;
    for _ in 0..count {
        holds &= conjunct(d, b);
    }
    holds
}

// No conjunct, or one or two.
fn conjuncts_of(k: u32) -> u32 {
    match k {
        6 => 1,
        7 => 2,
        _ => 0,
    }
}

// How many arcs and conjuncts a transition has.
#[derive(Clone, Copy)]
struct Shape {
    inputs: u32,
    outputs: u32,
    conjuncts: u32,
}

impl Shape {
    fn draw(d: &mut Pen<'_>) -> Shape {
        Shape {
            inputs: d.draw(4),
            outputs: d.draw(4),
            conjuncts: conjuncts_of(d.draw(8)),
        }
    }

    // The TRANSITION word of two variables and two elements.
    fn word(self) -> u32 {
        0x4002_0002 + self.inputs % 4 * 16 + self.outputs % 4 * 256 + self.conjuncts % 4 * 4096
    }
}

fn text(d: &mut Pen<'_>, text: &[u8]) {
    d.at = write(d.words, d.at, text);
}

// The net's words before its arcs.
fn begin(d: &mut Pen<'_>, s: Shape) {
    text(d, b"1:301 2:1 3:FFFC002 2:2 3:1 3:FFFC001 2:1 3:C004");
    d.word(s.word());
    text(d, b"3:FFFC002 3:3");
}

// A net and a binding: what its inputs take and its outputs give, whether its guard holds, and the state of the sequence.
#[derive(Clone, Copy)]
pub struct Net {
    pub words: Words,
    pub binding: Binding,
    pub taken: Moved,
    pub given: Moved,
    pub holds: bool,
    pub seed: u64,
}

impl Net {
    pub fn draw(seed: u64) -> Net {
        let mut words = [0u32; 128];
        let mut d = Pen {
            words: &mut words,
            at: 0,
            seed,
        };
        let binding = draw_binding(&mut d);
        let s = Shape::draw(&mut d);
        begin(&mut d, s);
        let taken = arcs(&mut d, binding, s.inputs);
        let given = arcs(&mut d, binding, s.outputs);
        let holds = conjuncts(&mut d, binding, s.conjuncts);
        text(&mut d, b"A:200 A:201");
        let end = d.end();
        Net {
            words: Words {
                words,
                length: end.at,
            },
            binding,
            taken,
            given,
            holds,
            seed: end.seed,
        }
    }
}
