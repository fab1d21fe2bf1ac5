// Tuples of values in ranges: how many there are, and each by its index.
use crate::build::put;
use crate::reading::{get, value_above, values};
use crate::slots::Slots;

// How many tuples are gone through at most.
pub const MOST: u64 = 20000;

// The number of tuples of values in the ranges from a position on, or one above the most.
pub fn tuples(net: &[u32], ranges: usize, count: u32) -> u64 {
    let mut product: u64 = 1;
    for i in 0..count as usize {
        let n = values(get(net, ranges.wrapping_add(i)));
        product = product.saturating_mul(n as u64).min(MOST + 1);
    }
    product
}

// A tuple by its index among all, by rising first value, then second and on.
pub fn tuple_at(net: &[u32], ranges: usize, count: u32, index: u64) -> Slots {
    let mut b = Slots::UNBOUND;
    let mut rest = index;
    for v in (0..count).rev() {
        let range = get(net, ranges.wrapping_add(v as usize));
        let n = values(range) as u64;
        b = b.with(v, value_above(range, (rest % n) as u32));
        rest /= n;
    }
    b
}

// The first slots put into a list.
pub fn put_slots(list: &mut [u32], start: usize, b: Slots, count: u32) -> usize {
    let mut at = start;
    for v in 0..count as usize {
        at = put(list, at, get(&b.words, v));
    }
    at
}
