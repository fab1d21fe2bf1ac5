// A marking as an array of counts: a cell for each colour of each place, place by place, in the order of markings, so that marking words are the cells above
// 0 in turn. A marking is read into counts as document 01 says, and counts are written as a marking.
use crate::build::put;
use crate::reading::{components, get, in_range, kind, place_count, ranges_at, signed, values};
use crate::tuples::{put_slots, tuple_at, tuples};

// The most cells that a net may need.
pub const MOST_CELLS: usize = 256;

pub type Counts = [u32; MOST_CELLS];

// The values of a colour's components, as many as its place has.
pub type Colour = [i32; 8];

// The number of colours of a place.
pub fn colours(net: &[u32], place: u32) -> u64 {
    tuples(net, ranges_at(net, place), components(net, place))
}

// The cell of a place's first colour; for the number of places, how many cells a net needs.
pub fn first_cell(net: &[u32], place: u32) -> usize {
    let mut cell: usize = 0;
    for p in 0..place {
        cell = cell.wrapping_add((colours(net, p) % 0x1_0000) as usize);
    }
    cell
}

// How far a value is above a range's low one, where the range has it.
fn above(range: u32, value: i32) -> Option<u32> {
    let above = u32::try_from(value.checked_sub(signed(range / 0x4000))?).ok()?;
    (above < values(range)).then_some(above)
}

// The cell of a colour, where its place has it.
pub fn cell_of(net: &[u32], place: u32, colour: &Colour) -> Option<usize> {
    let ranges = ranges_at(net, place);
    let mut index: u64 = 0;
    for (i, value) in colour
        .iter()
        .enumerate()
        .take(components(net, place) as usize)
    {
        let range = get(net, ranges.wrapping_add(i));
        index = index
            .wrapping_mul(values(range) as u64)
            .wrapping_add(above(range, *value)? as u64);
    }
    Some(first_cell(net, place).wrapping_add((index % 0x1_0000) as usize))
}

fn is_token(net: &[u32], w: u32) -> bool {
    kind(w) == 11
        && w / 0x40_0000 % 64 == 0
        && w / 0x4000 % 256 < place_count(net)
        && w % 0x4000 != 0
}

fn is_value(range: u32, w: u32) -> bool {
    kind(w) == 12 && w / 0x4000 % 0x4000 == 0 && in_range(range, w)
}

// The colour of a place whose VALUE words begin at a position, or the position of the first word that is none of them.
fn read_colour(net: &[u32], words: &[u32], start: usize, place: u32) -> Result<Colour, usize> {
    let ranges = ranges_at(net, place);
    let mut colour = [0; 8];
    for (i, value) in colour
        .iter_mut()
        .enumerate()
        .take(components(net, place) as usize)
    {
        let at = start.wrapping_add(i);
        let w = get(words, at);
        if !is_value(get(net, ranges.wrapping_add(i)), w) {
            return Err(at);
        }
        *value = signed(w);
    }
    Ok(colour)
}

// An entry of a marking: the position after it, its colour's cell, and its count.
#[derive(Clone, Copy)]
struct Entry {
    end: usize,
    cell: usize,
    count: u32,
}

// The entry at a position, whose cell is not below the least: its words first, then its order. Or the position of the word that can't be taken.
fn read_entry(net: &[u32], words: &[u32], at: usize, least: usize) -> Result<Entry, usize> {
    let w = get(words, at);
    if !is_token(net, w) {
        return Err(at);
    }
    let place = w / 0x4000 % 256;
    let first = at.wrapping_add(1);
    let colour = read_colour(net, words, first, place)?;
    let cell = cell_of(net, place, &colour)
        .filter(|cell| least <= *cell)
        .ok_or(at)?;
    Ok(Entry {
        end: first.wrapping_add(components(net, place) as usize),
        cell,
        count: w % 0x4000,
    })
}

// Counts the entries of a marking up to its first word that can't be taken, whose position is the error.
fn count_entries(net: &[u32], words: &[u32], cells: &mut Counts) -> Result<(), usize> {
    let mut least = 0;
    let mut at = 0;
    // An entry has a word at least.
    for _ in words {
        if words.len() <= at {
            break;
        }
        let e = read_entry(net, words, at, least)?;
        put(cells, e.cell, e.count);
        least = e.cell.wrapping_add(1);
        at = e.end;
    }
    Ok(())
}

// The counts of a marking, or the position of its first word that can't be taken.
pub fn read_marking(net: &[u32], words: &[u32]) -> Result<Counts, usize> {
    let mut cells = [0; MOST_CELLS];
    count_entries(net, words, &mut cells)?;
    Ok(cells)
}

// The counts of a marking, as far as it can be read.
pub fn counts_of(net: &[u32], words: &[u32]) -> Counts {
    let mut cells = [0; MOST_CELLS];
    let _ = count_entries(net, words, &mut cells);
    cells
}

// The entry of a place's colour by its index, nothing for the count 0.
pub fn put_entry(
    words: &mut [u32],
    at: usize,
    net: &[u32],
    place: u32,
    index: u64,
    count: u32,
) -> usize {
    if count == 0 {
        return at;
    }
    let n = components(net, place);
    let next = put(
        words,
        at,
        0xB000_0000 + place % 256 * 0x4000 + count % 0x4000,
    );
    put_slots(
        words,
        next,
        tuple_at(net, ranges_at(net, place), n, index),
        n,
    )
}

// The entries of a place, whose counts stand from a cell on.
fn put_place(
    words: &mut [u32],
    start: usize,
    net: &[u32],
    place: u32,
    cells: &[u32],
    cell: usize,
) -> usize {
    let mut at = start;
    let mut c = cell;
    for index in 0..colours(net, place) {
        at = put_entry(words, at, net, place, index, get(cells, c));
        c = c.wrapping_add(1);
    }
    at
}

// The marking words of counts; answers their number.
pub fn put_marking(words: &mut [u32], net: &[u32], cells: &[u32]) -> usize {
    let mut at = 0;
    for place in 0..place_count(net) {
        at = put_place(words, at, net, place, cells, first_cell(net, place));
    }
    at
}
