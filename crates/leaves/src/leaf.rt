// A full binding: put among the rows of the menu, where it is enabled.
ghost use Rattle.std.specs.Prelude.{false, ◌≡◌, ◌≤◌, length};
ghost use Rattle.semantics.specs.Lists.{Every};
ghost use Rattle.net.specs.Places.{PlacesFit};
ghost use Rattle.net.specs.Standing.{HasConjunct, HasArc};
ghost use Rattle.gathering.specs.Gather.{Known, Keeps};
ghost use Rattle.word.specs.Fields.{IsValue};
ghost use Rattle.leaves.specs.Leaf.{Held, IsLeaf};

use occurrence::enabled::{enabled_behind, is_enabled};
use rows::insert::{Inserted, insert_row};

// Of the first `start` input arcs it is known that they take `kept` keys. Once a row had no room the rows no longer matter, and only tries are counted.
pub fn leaf(
    net: &[u32],
    places: &[usize],
    conjuncts: &[usize],
    inputs: &[usize],
    marking: &[u32],
    begins: &[usize],
    binding: &[u32],
    start: usize,
    kept: usize,
    keys: &mut [u64; 8],
    amounts: &mut [u32; 8],
    menu: &mut [u32],
    most: usize,
    rows: usize,
    full: bool,
) -> Inserted
    requires places_fit { PlacesFit net.now places.now }
    requires begins_len { length begins.now ≡ 65 }
    requires inputs_len_bound { length inputs.now ≤ 8 }
    requires keys_len { (length keys.old ≡ 8) × (length amounts.old ≡ 8) }
    requires every { Every (HasConjunct net.now (length binding.now)) conjuncts.now }
    requires every_2 { Every (HasArc net.now places.now (length binding.now)) inputs.now }
    requires known { Known net.now places.now binding.now inputs.now start kept keys.old amounts.old }
    requires every_3 { Every IsValue binding.now }
    requires held { Held (length binding.now) most rows menu.old }
    ensures leaf { IsLeaf net.now places.now conjuncts.now inputs.now marking.now begins.now most binding.now (record { rows = rows; full = full }) menu.old result menu.new }
    ensures keeps { Keeps kept keys.old amounts.old keys.new amounts.new }
{
    if full {
        return Inserted { rows, full };
    }
    if enabled_behind(
        net, places, conjuncts, inputs, marking, begins, binding, start, kept, keys, amounts,
    ) {
        return insert_row(menu, rows, most, binding);
    }
    Inserted { rows, full }
}

// The same where nothing is known of the input arcs.
pub fn only_leaf(
    net: &[u32],
    places: &[usize],
    conjuncts: &[usize],
    inputs: &[usize],
    marking: &[u32],
    begins: &[usize],
    binding: &[u32],
    menu: &mut [u32],
    most: usize,
    rows: usize,
) -> Inserted
    requires places_fit { PlacesFit net.now places.now }
    requires begins_len { length begins.now ≡ 65 }
    requires inputs_len_bound { length inputs.now ≤ 8 }
    requires every { Every (HasConjunct net.now (length binding.now)) conjuncts.now }
    requires every_2 { Every (HasArc net.now places.now (length binding.now)) inputs.now }
    requires every_3 { Every IsValue binding.now }
    requires held { Held (length binding.now) most rows menu.old }
    ensures { IsLeaf net.now places.now conjuncts.now inputs.now marking.now begins.now most binding.now (record { rows = rows; full = false }) menu.old result menu.new }
{
    if is_enabled(net, places, conjuncts, inputs, marking, begins, binding) {
        return insert_row(menu, rows, most, binding);
    }
    Inserted { rows, full: false }
}
