// What an expression is worth under a binding: a number from -2^31 to 2^31 - 1, which is what an i32 holds.
use crate::reading::{get, kind, signed, skip};
use crate::slots::Slots;

// The remainder by a number above 0.
fn remainder(a: i32, d: i32) -> Option<i32> {
    if d <= 0 {
        return None;
    }
    Some(a.rem_euclid(d))
}

// Full tiller load by depth.
fn load(a: i32) -> Option<i32> {
    match a {
        0 => Some(0),
        1..=11 => Some(a + 1),
        12 => Some(12),
        13..=14 => Some(13),
        15 => Some(14),
        _ => None,
    }
}

// Operands in wait.
#[derive(Clone, Copy)]
struct Stack {
    cells: [i32; 16],
    depth: usize,
}

impl Stack {
    fn push(&mut self, v: i32) {
        if self.depth < 16 {
            self.cells[self.depth] = v;
        }
        self.depth = self.depth % 16 + 1;
    }

    // The operand that is so many below the top, 1 for the top; 0 where there is none, as in words that are no net.
    fn operand(&self, below: usize) -> i32 {
        match self.depth.checked_sub(below) {
            Some(i) => self.cells.get(i).copied().unwrap_or(0),
            None => 0,
        }
    }

    fn drop_top(&mut self, count: usize) {
        self.depth = self.depth.wrapping_sub(count) % 16;
    }

    // What an operator makes of the operands on top.
    fn operator(&mut self, code: u32) -> Option<i32> {
        let a = self.operand(1);
        if code == 4 {
            self.drop_top(1);
            return load(a);
        }
        let b = self.operand(2);
        self.drop_top(2);
        match code {
            0 => a.checked_add(b),
            1 => a.checked_sub(b),
            2 => a.checked_mul(b),
            3 => remainder(a, b),
            _ => load(a),
        }
    }
}

// The expression at a position, read from its last word to its first.
pub fn evaluate(net: &[u32], start: usize, b: Slots) -> Option<i32> {
    let mut s = Stack {
        cells: [0; 16],
        depth: 0,
    };
    for at in (start..skip(net, start)).rev() {
        let w = get(net, at);
        let v = match kind(w) {
            7 => signed(w),
            8 => signed(b.words[w as usize % 8]),
            _ => s.operator(w % 8)?,
        };
        s.push(v);
    }
    Some(s.operand(1))
}
