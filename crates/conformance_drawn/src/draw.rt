// Expressions drawn from a sequence of numbers; what each is worth is worked out where it is drawn.
use conformance_draw::draw::Pen;
use conformance_plain::reading::{signed, value_above, values};

// The values of the two variables: x from -1 to 2, y from 0 to 3.
#[derive(Clone, Copy)]
pub struct Binding {
    pub x: i32,
    pub y: i32,
}

pub fn draw_binding(d: &mut Pen<'_>) -> Binding {
    Binding {
        x: d.draw(4).cast_signed().wrapping_sub(1),
        y: d.draw(4).cast_signed(),
    }
}

fn constant(d: &mut Pen<'_>, v: i32) -> i32 {
    d.constant(v.cast_unsigned());
    v
}

fn variable(d: &mut Pen<'_>, number: u32, v: i32) -> i32 {
    d.word(0x8000_0000 + number % 8);
    v
}

// A variable, or a constant from -1 to 4.
fn leaf(d: &mut Pen<'_>, b: Binding) -> i32 {
    match d.draw(10) {
        0..=1 => variable(d, 0, b.x),
        2..=3 => variable(d, 1, b.y),
        k => constant(d, k.cast_signed().wrapping_sub(5)),
    }
}

// Load of -1 to 4.
fn load(a: i32) -> Option<i32> {
    match a {
        0 => Some(0),
        1..=4 => Some(a + 1),
        _ => None,
    }
}

// What an operator of two operands makes of them, by its code.
fn result(code: u32, a: i32, b: i32) -> Option<i32> {
    match code {
        0 => a.checked_add(b),
        1 => a.checked_sub(b),
        2 => a.checked_mul(b),
        _ if 0 < b => Some(a.rem_euclid(b)),
        _ => None,
    }
}

fn operator(d: &mut Pen<'_>, b: Binding, code: u32) -> Option<i32> {
    d.word(0x9000_0000 + code % 8);
    let first = leaf(d, b);
    if code == 4 {
        return load(first);
    }
    let second = leaf(d, b);
    result(code, first, second)
}

// A leaf, or an operator on leaves.
pub fn expression(d: &mut Pen<'_>, b: Binding) -> Option<i32> {
    match d.draw(12) {
        0..=6 => Some(leaf(d, b)),
        k => operator(d, b, k - 7),
    }
}

// Mostly a constant from 0 to 3.
pub fn coefficient(d: &mut Pen<'_>, b: Binding) -> Option<i32> {
    match d.draw(8) {
        0 => Some(constant(d, 0)),
        1..=3 => Some(constant(d, 1)),
        4 => Some(constant(d, 2)),
        5 => Some(constant(d, 3)),
        _ => expression(d, b),
    }
}

// Mostly a constant of a RANGE.
pub fn component(d: &mut Pen<'_>, b: Binding, range: u32) -> Option<i32> {
    if d.draw(4) < 3 {
        let above = d.draw(values(range));
        return Some(constant(d, signed(value_above(range, above))));
    }
    expression(d, b)
}
