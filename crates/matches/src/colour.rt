// A match try: a colour that stands in the marking held against the components of an arc, told by their first words.
ghost use Rattle.std.specs.Prelude.{◌≡◌, ◌≤◌, ◌+◌, length, take};
ghost use Rattle.semantics.specs.Tries.{agree, partly};
ghost use Rattle.net.specs.Places.{ranges_from};
ghost use Rattle.colours.specs.Values.{values_at};
ghost use Rattle.tries.specs.Partial.{partial_of, IsTried, IsSaved};
ghost use Rattle.matches.specs.Met.{part_try, matched_by, IsMet, met_if};

use colours::range::in_range;
use evaluation::evaluate::value_of;
use numbers::number::equal;
use tries::partial::restore;
use word::fields::{kind, payload, signed, value_word};

// How a component of a colour stands to one of an arc: it agrees, it differs, or a variable takes it, as a VALUE word.
#[derive(Clone, Copy)]
pub enum Met {
    Agrees,
    Differs,
    Takes(usize, u32),
}

// Whether two values agree.
fn met_if(same: bool) -> Met
    ensures { result ≡ met_if same }
{
    if same {
        return Met::Agrees;
    }
    Met::Differs
}

// A lone variable meets a component: an old value agrees, a new one is in range.
fn meet_variable(net: &[u32], ranges: usize, variables: usize, b: &[u32], n: usize, z: i32) -> Met
    requires { (variables ≤ length b.now) × (ranges + variables ≤ length net.now) }
    ensures { IsMet variables b.now (agree (ranges_from net.now variables ranges) (partial_of variables b.now) n (partly (partial_of variables b.now) n) z) result }
{
    if variables <= n {
        return Met::Differs;
    }
    match value_of(b[n]) {
        Some(old) => met_if(equal(old, z)),
        None => {
            if !in_range(net[ranges + n], z) {
                return Met::Differs;
            }
            Met::Takes(n, value_word(z))
        }
    }
}

// A component told by its first word: a constant or a lone variable agrees, one with operators waits.
fn meet_part(net: &[u32], ranges: usize, variables: usize, b: &[u32], part: u32, z: i32) -> Met
    requires { (variables ≤ length b.now) × (ranges + variables ≤ length net.now) }
    ensures { IsMet variables b.now (part_try (ranges_from net.now variables ranges) part z (partial_of variables b.now)) result }
{
    match kind(part) {
        7 => met_if(equal(signed(part), z)),
        8 => meet_variable(net, ranges, variables, b, payload(part) as usize, z),
        0..=6 | 9..=15 => Met::Agrees,
        _ => Met::Agrees,
    }
}

// The colour at a position of the marking held against `width` components. The slots are written as it goes, and put back where a component differs.
pub fn match_colour(
    net: &[u32],
    ranges: usize,
    variables: usize,
    marking: &[u32],
    at: usize,
    width: usize,
    parts: &[u32; 4],
    slots: &mut [u32],
    saved: &[u32; 8],
) -> bool
    requires slots_len { (length slots.old ≡ variables) × (ranges + variables ≤ length net.now) }
    requires width_bound { (width ≤ 4) × (at + width ≤ length marking.now) }
    requires parts_len { length parts.now ≡ 4 }
    requires saved { IsSaved slots.old saved.now }
    ensures { IsTried variables (matched_by (ranges_from net.now variables ranges) (take width parts.now) (values_at marking.now width at) (partial_of variables slots.old)) slots.old result slots.new }
{
    for i in 0..width {
        match meet_part(
            net,
            ranges,
            variables,
            slots,
            parts[i],
            signed(marking[at + i]),
        ) {
            Met::Agrees => {}
            Met::Differs => {
                restore(slots, saved);
                return false;
            }
            Met::Takes(n, w) => {
                slots[n] = w;
            }
        }
    }
    true
}
