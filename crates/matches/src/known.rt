// What is known of an arc's components on arrival: the value that a colour must have where a component is a constant or a variable that is bound. Most
// tries of a search fail there, so a try compares these words before it goes through the components.
ghost use Rattle.std.specs.Prelude.{◌≡◌, ◌≤◌, ◌+◌, length, replicate};
ghost use Rattle.semantics.specs.Tries.{partly};
ghost use Rattle.tries.specs.Partial.{partial_of};
ghost use Rattle.matches.specs.Known.{wanted, IsKnown, Knows, DiffersIf};

use evaluation::evaluate::value_of;
use word::fields::{kind, payload};

// The VALUE word of a variable that is bound, else 0.
fn known_variable(variables: usize, b: &[u32], n: usize) -> u32
    requires { variables ≤ length b.now }
    ensures { IsKnown (partly (partial_of variables b.now) n) result }
{
    if variables <= n {
        return 0;
    }
    match value_of(b[n]) {
        Some(_) => b[n],
        None => 0,
    }
}

// The VALUE word that a component told by its first word wants of a colour, or 0 where that is not known yet.
fn known_part(variables: usize, b: &[u32], part: u32) -> u32
    requires { variables ≤ length b.now }
    ensures { IsKnown (wanted (partial_of variables b.now) part) result }
{
    match kind(part) {
        7 => 0xC000_0000 + part % 16384,
        8 => known_variable(variables, b, payload(part) as usize),
        0..=6 | 9..=15 => 0,
        _ => 0,
    }
}

// The same of the first `width` components, into words that are 0.
pub fn known_parts(
    variables: usize,
    b: &[u32],
    width: usize,
    parts: &[u32; 4],
    known: &mut [u32; 4],
)
    requires variables_in_bounds { (variables ≤ length b.now) × (width ≤ 4) }
    requires known_value { known.old ≡ replicate 4 0 }
    ensures { Knows variables b.now parts.now known.new }
{
    for i in 0..width {
        known[i] = known_part(variables, b, parts[i]);
    }
}

// Whether the colour at a position of the marking has another value where one is known.
pub fn differs(marking: &[u32], at: usize, width: usize, known: &[u32; 4]) -> bool
    requires { (width ≤ 4) × (at + width ≤ length marking.now) }
    ensures { DiffersIf marking.now at width known.now result }
{
    for i in 0..width {
        let w = known[i];
        if w != 0 && marking[at + i] % 16384 != w % 16384 {
            return true;
        }
    }
    false
}
