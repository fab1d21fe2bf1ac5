// Where the structures of a net begin, in lent tables, and by value for the calls that work on the net afterwards.
ghost use Rattle.std.specs.Prelude.{◌≡◌, ◌≤◌, ◌+◌, length, take};
ghost use mathlib.Core.List.{zip};
ghost use Rattle.net.specs.Skim.{skim_place, skim_places};
ghost use Rattle.net.specs.Index.{up_to, parts_of, PartsRead, place_read};

use crate::skim::{skip_ranges, skip_several};
use kinds::take::take;
use semantics::refusal::Refusal;

// How many of each part a transition has whose parts stand in tables.
#[derive(Clone, Copy)]
pub struct Parts {
    pub variables: usize,
    pub inputs: usize,
    pub outputs: usize,
    pub conjuncts: usize,
    pub elements: usize,
}

// How many parts of each kind a TRANSITION word tells.
pub fn parts_of(head: u32) -> Parts
    ensures { result ≡ parts_of head }
{
    Parts {
        variables: (head % 16) as usize,
        inputs: (head / 16 % 16) as usize,
        outputs: (head / 256 % 16) as usize,
        conjuncts: (head / 4096 % 16) as usize,
        elements: (head / 65536 % 16) as usize,
    }
}

// The transition at a position and the position after it; `widths` has the number of components of each place. Where its parts begin is written to 32 numbers
// of a table from one on: eight for its input arcs, eight for its output arcs, eight for its conjuncts and eight for its elements.
pub fn read_parts(
    words: &[u32],
    widths: &[usize],
    table: &mut [usize],
    base: usize,
    at: usize,
) -> Result<(Parts, usize), Refusal>
    requires { base + 32 ≤ length table.old }
    ensures { PartsRead words.now widths.now at table.old base result table.new }
{
    let t = parts_of(take(words, at, 4)?);
    let v = t.variables;
    let ranges_end = skip_ranges(words, v, at + 1)?;
    let ins_end = skip_several(words, widths, v, 5, table, base, t.inputs, Ok(ranges_end))?;
    let outs_end = skip_several(words, widths, v, 5, table, base + 8, t.outputs, Ok(ins_end))?;
    let guard_end = skip_several(
        words,
        widths,
        v,
        6,
        table,
        base + 16,
        t.conjuncts,
        Ok(outs_end),
    )?;
    let end = skip_several(
        words,
        widths,
        v,
        10,
        table,
        base + 24,
        t.elements,
        Ok(guard_end),
    )?;
    Ok((t, end))
}

// A place: the position after it, and its number of components.
#[derive(Clone, Copy)]
pub struct PlaceIndex {
    pub end: usize,
    pub width: usize,
}

// The place at a position.
fn read_place(words: &[u32], at: usize) -> Result<PlaceIndex, Refusal>
    ensures { place_read result ≡ skim_place words.now at }
{
    let width = take(words, at, 2)? as usize;
    let end = skip_ranges(words, width, at + 1)?;
    Ok(PlaceIndex { end, width })
}

// n places; where each begins and its number of components are written to the front of the two tables.
pub fn read_places(
    words: &[u32],
    begins: &mut [usize],
    widths: &mut [usize],
    n: usize,
    at: usize,
) -> Result<usize, Refusal>
    requires n_in_bounds { n ≤ length begins.old }
    requires n_in_bounds_2 { n ≤ length widths.old }
    ensures { up_to result (zip (take n begins.new) (take n widths.new)) ≡ skim_places n words.now at }
{
    let mut next = at;
    for i in 0..n {
        begins[i] = next;
        let place = read_place(words, next)?;
        widths[i] = place.width;
        next = place.end;
    }
    Ok(next)
}

// A net: the position after it, its places with their numbers of components, and its transitions.
#[derive(Clone, Copy)]
pub struct NetIndex {
    pub end: usize,
    pub places: usize,
    pub transitions: usize,
    pub places_at: [usize; 64],
    pub widths: [usize; 64],
    pub transitions_at: [usize; 64],
}
