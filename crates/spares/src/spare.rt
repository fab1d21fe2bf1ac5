// The input arcs that leaves of a search need not look up: those that a match of the plan finds, where an arc takes one token, its components are constants
// and lone variables, and no other input arc takes from its place. semantics/proofs/Settled says why.
ghost use Rattle.std.specs.Prelude.{◌≡◌, ◌≤◌, ◌<◌, ◌+◌, length};
ghost use Rattle.net.specs.Places.{PlacesFit};
ghost use Rattle.spares.specs.Spare.{Inside, Within, LoneIf, AloneIf, MatchedIf, SparesIf, IsRest};

use word::fields::{kind, payload};

// Whether none of so many words from a position on is that of an operator.
fn lone_words(net: &[u32], at: usize, width: usize) -> bool
    requires { at + width ≤ length net.now }
    ensures { LoneIf net.now at width result }
{
    for i in 0..width {
        if kind(net[at + i]) == 9 {
            return false;
        }
    }
    true
}

// Whether no other input arc is of the place of this one.
fn alone(net: &[u32], inputs: &[usize], k: usize) -> bool
    requires inside { Inside net.now inputs.now }
    requires k_in_bounds { k < length inputs.now }
    ensures { AloneIf net.now inputs.now k result }
{
    let w = net[inputs[k]];
    for (i, at) in inputs.iter().enumerate() {
        if i != k && net[*at] == w {
            return false;
        }
    }
    true
}

// Whether an element of the plan is the match of an input arc.
fn is_matched(net: &[u32], elements: &[usize], k: usize) -> bool
    requires inside { Inside net.now elements.now }
    requires k_bound { k < 8 }
    ensures { MatchedIf net.now elements.now k result }
{
    let w = 0xA000_0000 + k as u32;
    for at in elements {
        if net[*at] == w {
            return true;
        }
    }
    false
}

// Whether an input arc is spared.
fn is_spared(net: &[u32], places: &[usize], inputs: &[usize], elements: &[usize], k: usize) -> bool
    requires places_fit { PlacesFit net.now places.now }
    requires within { Within net.now places.now inputs.now elements.now }
    requires k_in_bounds { (k < length inputs.now) × (k < 8) }
    ensures { SparesIf net.now places.now inputs.now elements.now k result }
{
    let at = inputs[k];
    if net[at + 1] != 0x7000_0001 {
        return false;
    }
    let place = payload(net[at]) as usize;
    let width = payload(net[places[place]]) as usize;
    lone_words(net, at + 2, width) && alone(net, inputs, k) && is_matched(net, elements, k)
}

// Copies the positions of the input arcs that are not spared, and tells how many.
pub fn leave_out(
    net: &[u32],
    places: &[usize],
    inputs: &[usize],
    elements: &[usize],
    rest: &mut [usize],
) -> usize
    requires places_fit { PlacesFit net.now places.now }
    requires within { Within net.now places.now inputs.now elements.now }
    requires inputs_len_bound { (length inputs.now ≤ 8) × (length rest.old ≡ 8) }
    ensures { IsRest net.now places.now inputs.now elements.now rest.new result }
{
    let mut n = 0;
    for j in 0..inputs.len() {
        let spared = is_spared(net, places, inputs, elements, j);
        if !spared {
            rest[n] = inputs[j];
            n += 1;
        }
    }
    n
}
