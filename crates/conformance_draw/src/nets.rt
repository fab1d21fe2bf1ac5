// Drawn nets, without their plans, and drawn markings: at most three places and one or two transitions, of which one is drawn.
use crate::draw::{Draft, Pen};
use conformance_plain::counts::{colours, put_entry};
use conformance_plain::reading::{components, get, place_count, ranges_at, value_above, values};

fn range_word(low: u32, more: u32) -> u32 {
    0x3000_0000 + low % 0x4000 * 0x4000 + low.wrapping_add(more) % 0x4000
}

// A RANGE of at most so many values and at least half as many, mostly with a low end from -2 to 0.
fn range(d: &mut Pen<'_>, most: u32) {
    let more = most.wrapping_sub(1).wrapping_sub(d.draw(most / 2 + 1));
    let low = d.draw(3).wrapping_sub(2);
    let w = match d.pick(36) {
        34 => range_word(8192, more),
        35 => range_word(8191_u32.wrapping_sub(more), more),
        _ => range_word(low, more),
    };
    d.word(w);
}

fn ranges(d: &mut Pen<'_>, count: u32, most: u32) {
    for _ in 0..count {
        range(d, most);
    }
}

// How many components a place has.
fn components_of(k: u32) -> u32 {
    match k {
        0..=8 => 1,
        9..=15 => 2,
        16..=18 => 3,
        _ => 4,
    }
}

// How many values a component has at most: the fewer, the more components there are.
fn values_of(components: u32) -> u32 {
    match components {
        1 => 6,
        2 => 4,
        _ => 3,
    }
}

// A place of one to four components.
fn place(d: &mut Pen<'_>) {
    let n = components_of(d.draw(20));
    d.word(0x2000_0000 + n % 8);
    ranges(d, n, values_of(n));
}

pub fn places(d: &mut Pen<'_>, count: u32) {
    for _ in 0..count {
        place(d);
    }
}

// A component expression of the RANGE: a lone variable, a constant of the range, or operators.
fn component(d: &mut Pen<'_>, variables: u32, range: u32) {
    match d.draw(20) {
        0..=11 if 0 < variables => d.variable(variables),
        12..=14 if 0 < variables => d.offset(variables),
        0..=17 => {
            let above = d.draw(values(range));
            d.constant(value_above(range, above));
        }
        18 => d.operator(variables),
        _ => d.leaf(variables),
    }
}

fn arc(d: &mut Pen<'_>, variables: u32, places: u32) {
    let p = d.draw(places);
    d.word(0x5000_0000_u32.wrapping_add(p));
    d.coefficient(variables);
    let ranges = ranges_at(d.words, p);
    for i in 0..components(d.words, p) as usize {
        let range = get(d.words, ranges.wrapping_add(i));
        component(d, variables, range);
    }
}

fn arcs(d: &mut Pen<'_>, variables: u32, places: u32, count: u32) {
    for _ in 0..count {
        arc(d, variables, places);
    }
}

// An equation with a variable alone on its left side, or on its right one.
fn equation(d: &mut Pen<'_>, variables: u32, left: bool) {
    d.word(0x6000_0000);
    if left {
        d.variable(variables);
        other_side(d, variables);
    } else {
        other_side(d, variables);
        d.variable(variables);
    }
}

// A conjunct: often an equation with a variable alone on one side.
fn conjunct(d: &mut Pen<'_>, variables: u32) {
    let k = d.draw(12);
    if variables == 0 || 8 <= k {
        d.word(0x6000_0000 + k % 4);
        d.expression(variables);
        d.expression(variables);
    } else {
        equation(d, variables, k < 5);
    }
}

fn other_side(d: &mut Pen<'_>, variables: u32) {
    match d.draw(9) {
        k @ 0..=2 => d.constant(k.wrapping_sub(1)),
        3 => d.operator(0),
        4..=5 => d.offset(variables),
        _ => d.expression(variables),
    }
}

fn conjuncts(d: &mut Pen<'_>, variables: u32, count: u32) {
    for _ in 0..count {
        conjunct(d, variables);
    }
}

// How many variables: mostly one to four.
fn variables_of(k: u32) -> u32 {
    match k {
        0 => 0,
        1..=4 => 1,
        5..=11 => 2,
        12..=16 => 3,
        17..=19 => 4,
        20 => 5,
        21 => 6,
        22 => 7,
        _ => 8,
    }
}

// How many values a variable has at most, so that a transition has at most 256 bindings.
fn most_values(variables: u32, k: u32) -> u32 {
    match variables {
        0..=1 => {
            if k == 0 {
                return 200;
            }
            6
        }
        2..=3 => 6,
        4 => 4,
        5 => 3,
        _ => 2,
    }
}

fn guards_of(k: u32) -> u32 {
    match k {
        0..=4 => 0,
        5..=7 => 1,
        8 => 2,
        _ => 3,
    }
}

fn inputs_of(k: u32) -> u32 {
    match k {
        0 => 0,
        1..=4 => 1,
        5..=7 => 2,
        8 => 3,
        _ => 4,
    }
}

// A drawn net without its plan: the position after its words, the state of the sequence, and the number of the drawn transition.
#[derive(Clone, Copy)]
pub struct Head {
    pub at: usize,
    pub seed: u64,
    pub transition: u32,
}

// A drawn transition up to its plan.
pub fn transition(d: &mut Pen<'_>, places: u32) {
    let variables = variables_of(d.draw(24));
    let inputs = inputs_of(d.draw(10));
    let outputs = d.draw(3);
    let guards = guards_of(d.draw(10));
    let most = most_values(variables, d.draw(6));
    d.word(
        0x4000_0000 + variables % 16 + inputs % 16 * 16 + outputs % 16 * 256 + guards % 16 * 4096,
    );
    ranges(d, variables, most);
    arcs(d, variables, places, inputs);
    arcs(d, variables, places, outputs);
    conjuncts(d, variables, guards);
}

// A transition beside the drawn one: with nothing, or with one variable and a plan.
pub fn beside(d: &mut Pen<'_>, k: u32) {
    if k % 2 == 0 {
        d.word(0x4000_0000);
        return;
    }
    for w in [0x4001_0001, 0x3000_4001, 0xA000_0200] {
        d.word(w);
    }
}

// The NET word of a number of transitions, and as many places as are drawn.
fn draw_places(d: &mut Pen<'_>, count: u32, transitions: u32) {
    d.word(0x1000_0000 + count % 16 * 256 + transitions % 16);
    places(d, count);
}

// The words before the drawn transition, k telling how it stands in the net.
fn draw_front(d: &mut Pen<'_>, count: u32, k: u32) {
    match k % 3 {
        0 => draw_places(d, count, 1),
        1 => draw_places(d, count, 2),
        _ => {
            draw_places(d, count, 2);
            beside(d, k);
        }
    }
}

// The net's words up to the plan of the drawn transition. It is alone, the first of two, or the second of two.
pub fn draw_head(words: &mut [u32], seed: u64, k: u32) -> Head {
    let mut d = Pen { words, at: 0, seed };
    let count = d.draw(3) % 3 + 1;
    draw_front(&mut d, count, k);
    transition(&mut d, count);
    Head {
        at: d.at,
        seed: d.seed,
        transition: k % 3 / 2,
    }
}

fn count_of(k: u32) -> u32 {
    match k {
        0..=3 => 1,
        4..=6 => 2,
        7 => 3,
        8 => 5,
        _ => 16383,
    }
}

// Perhaps an entry: the colour of an index, by a chance out of 256.
fn entry(d: &mut Pen<'_>, net: &[u32], place: u32, index: u64, chance: u32) {
    if d.draw(256) < chance {
        let count = count_of(d.draw(10));
        d.at = put_entry(d.words, d.at, net, place, index, count);
    }
}

// The chance of each colour of a place out of 256: none, or one that leaves few of many.
fn chance_of(k: u32, all: u64) -> u32 {
    if k == 0 {
        return 0;
    }
    if 40 < all {
        return 40;
    }
    if 20 < all {
        return 120;
    }
    match k {
        1 => 100,
        2..=3 => 200,
        _ => 256,
    }
}

// The entries of a place.
fn mark_place(d: &mut Pen<'_>, net: &[u32], place: u32) {
    let all = colours(net, place);
    let chance = chance_of(d.draw(8), all);
    for index in 0..all {
        entry(d, net, place, index, chance);
    }
}

// A marking of a net.
pub fn marking(words: &mut [u32], seed: u64, net: &[u32]) -> Draft {
    let mut d = Pen { words, at: 0, seed };
    for place in 0..place_count(net) {
        mark_place(&mut d, net, place);
    }
    d.end()
}
