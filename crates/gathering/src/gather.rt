// What several arcs move: keys and amounts in lent lists.
ghost use Rattle.std.specs.Prelude.{◌≡◌, ◌≤◌, length};
ghost use Rattle.semantics.specs.Lists.{Every};
ghost use Rattle.net.specs.Places.{PlacesFit};
ghost use Rattle.net.specs.Standing.{HasArc};
ghost use Rattle.gathering.specs.Gather.{Known, IsGathered, Keeps};

use arcs::flow::{Moved, move_at};

// How many arcs were gone through and how many keys they left; not all of them where the next one has no flow, or moves a colour that its place cannot have.
// No Option, since both numbers count there too.
#[derive(Clone, Copy)]
pub struct Gathered {
    pub some: bool,
    pub arcs: usize,
    pub n: usize,
}

// Writes the key and the amount of each of the arcs that stand at these positions and moves something, one after the other, behind `kept` keys which
// the first `start` arcs are known to move.
pub fn gather(
    net: &[u32],
    places: &[usize],
    binding: &[u32],
    ats: &[usize],
    start: usize,
    kept: usize,
    keys: &mut [u64; 8],
    amounts: &mut [u32; 8],
) -> Gathered
    requires places_fit { PlacesFit net.now places.now }
    requires ats_len_bound { length ats.now ≤ 8 }
    requires keys_len { (length keys.old ≡ 8) × (length amounts.old ≡ 8) }
    requires every { Every (HasArc net.now places.now (length binding.now)) ats.now }
    requires known { Known net.now places.now binding.now ats.now start kept keys.old amounts.old }
    ensures gathered { IsGathered net.now places.now binding.now ats.now result keys.new amounts.new }
    ensures keeps { Keeps kept keys.old amounts.old keys.new amounts.new }
{
    let mut n = kept;
    for i in start..ats.len() {
        match move_at(net, places, binding, ats[i]) {
            Moved::Tokens(key, amount) => {
                keys[n] = key;
                amounts[n] = amount;
                n += 1;
            }
            Moved::Idle => {}
            Moved::Outside | Moved::Nothing => {
                return Gathered {
                    some: false,
                    arcs: i,
                    n,
                };
            }
        }
    }
    Gathered {
        some: true,
        arcs: ats.len(),
        n,
    }
}

// The same where it is likely that all arcs are known: then nothing is called. A search asks so on every arrival and at every leaf.
pub fn gather_behind(
    net: &[u32],
    places: &[usize],
    binding: &[u32],
    ats: &[usize],
    start: usize,
    kept: usize,
    keys: &mut [u64; 8],
    amounts: &mut [u32; 8],
) -> Gathered
    requires places_fit { PlacesFit net.now places.now }
    requires ats_len_bound { length ats.now ≤ 8 }
    requires keys_len { (length keys.old ≡ 8) × (length amounts.old ≡ 8) }
    requires every { Every (HasArc net.now places.now (length binding.now)) ats.now }
    requires known { Known net.now places.now binding.now ats.now start kept keys.old amounts.old }
    ensures gathered { IsGathered net.now places.now binding.now ats.now result keys.new amounts.new }
    ensures keeps { Keeps kept keys.old amounts.old keys.new amounts.new }
{
    if ats.len() <= start {
        return Gathered {
            some: true,
            arcs: start,
            n: kept,
        };
    }
    gather(net, places, binding, ats, start, kept, keys, amounts)
}
