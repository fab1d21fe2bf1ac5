// What arcs move under a binding, on an array of counts, as document 01 says it. Inputs are taken from the counts arc by arc, so that each takes what those
// before it left; outputs are given to what is left.
use conformance_plain::counts::{Colour, Counts, cell_of};
use conformance_plain::reading::{
    Shape, components, get, place_of, skip, skip_arcs, skip_conjuncts,
};
use conformance_plain::slots::Slots;
use conformance_plain::value::evaluate;

// The colour whose component expressions begin at a position, where all of them have values.
fn colour_under(net: &[u32], start: usize, place: u32, b: Slots) -> Option<Colour> {
    let mut colour = [0; 8];
    let mut at = start;
    for value in colour.iter_mut().take(components(net, place) as usize) {
        *value = evaluate(net, at, b)?;
        at = skip(net, at);
    }
    Some(colour)
}

// An arc under a binding: its colour's cell, where its place has the colour, and its coefficient.
#[derive(Clone, Copy)]
struct Flow {
    cell: Option<usize>,
    amount: u32,
}

// The arc at a position, where its expressions have values and its coefficient is not negative.
fn flow_of(net: &[u32], arc: usize, b: Slots) -> Option<Flow> {
    let place = place_of(net, arc);
    let first = arc.wrapping_add(1);
    let coefficient = evaluate(net, first, b)?;
    let colour = colour_under(net, skip(net, first), place, b)?;
    Some(Flow {
        cell: cell_of(net, place, &colour),
        // No count comes near 100,000, and so few times it fit a word.
        amount: u32::try_from(coefficient).ok()?.min(100_000),
    })
}

// What an input takes of the counts, or an output gives to them; nothing where it can't.
fn move_flow(c: &mut Counts, f: Flow, gives: bool) -> Option<()> {
    if f.amount == 0 {
        return Some(());
    }
    let count = c.get_mut(f.cell?)?;
    *count = if gives {
        count.checked_add(f.amount)?
    } else {
        count.checked_sub(f.amount)?
    };
    Some(())
}

// Several arcs from a position on.
fn move_arcs(
    net: &[u32],
    start: usize,
    count: u32,
    b: Slots,
    c: &Counts,
    gives: bool,
) -> Option<Counts> {
    let mut moved = *c;
    let mut arc = start;
    for _ in 0..count {
        move_flow(&mut moved, flow_of(net, arc, b)?, gives)?;
        arc = skip_arcs(net, arc, 1);
    }
    Some(moved)
}

fn related(relation: u32, a: i32, b: i32) -> bool {
    match relation {
        0 => a == b,
        1 => a != b,
        2 => a < b,
        _ => a <= b,
    }
}

// Whether the sides of the conjunct at a position are in its relation, where both have values.
fn holds(net: &[u32], at: usize, b: Slots) -> Option<bool> {
    let first = at.wrapping_add(1);
    let x = evaluate(net, first, b)?;
    let y = evaluate(net, skip(net, first), b)?;
    Some(related(get(net, at) % 4, x, y))
}

// Whether every conjunct of a transition holds.
fn guard_holds(s: Shape<'_>, b: Slots) -> bool {
    let mut at = s.conjuncts_at;
    for _ in 0..s.conjuncts {
        if !holds(s.net, at, b).unwrap_or(false) {
            return false;
        }
        at = skip_conjuncts(s.net, at, 1);
    }
    true
}

// The counts less the inputs, where the binding is enabled.
pub fn take_inputs(s: Shape<'_>, c: &Counts, b: Slots) -> Option<Counts> {
    if !guard_holds(s, b) {
        return None;
    }
    move_arcs(s.net, s.inputs_at, s.inputs, b, c, false)
}

// The counts and the outputs, where each output has values, is not negative and has a colour of its place.
pub fn give_outputs(s: Shape<'_>, c: &Counts, b: Slots) -> Option<Counts> {
    move_arcs(s.net, s.outputs_at, s.outputs, b, c, true)
}

// Whether a binding is enabled.
pub fn is_enabled(s: Shape<'_>, c: &Counts, b: Slots) -> bool {
    take_inputs(s, c, b).is_some()
}
