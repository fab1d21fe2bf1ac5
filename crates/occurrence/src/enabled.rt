// Whether a transition is enabled under lent binding words, in a marking with the beginnings of its places.
ghost use Rattle.std.specs.Prelude.{◌≡◌, ◌≤◌, length};
ghost use Rattle.semantics.specs.Lists.{Every};
ghost use Rattle.net.specs.Places.{PlacesFit};
ghost use Rattle.net.specs.Standing.{HasConjunct, HasArc};
ghost use Rattle.gathering.specs.Gather.{Known, Keeps};
ghost use Rattle.occurrence.specs.Answers.{IsTaken, IsEnabledAt};

use crate::cover::covers;
use gathering::gather::{Gathered, gather, gather_behind};
use guards::guard::{guard_holds, guard_passes};

// What the input arcs that stand at some positions take, as keys and amounts, where the conjuncts that stand at others hold and the marking covers it: none exactly where
// the binding is not enabled.
pub fn taken(
    net: &[u32],
    places: &[usize],
    conjuncts: &[usize],
    inputs: &[usize],
    marking: &[u32],
    begins: &[usize],
    binding: &[u32],
    keys: &mut [u64; 8],
    amounts: &mut [u32; 8],
) -> Gathered
    requires places_fit { PlacesFit net.now places.now }
    requires begins_len { length begins.now ≡ 65 }
    requires inputs_len_bound { length inputs.now ≤ 8 }
    requires keys_len { (length keys.old ≡ 8) × (length amounts.old ≡ 8) }
    requires every { Every (HasConjunct net.now (length binding.now)) conjuncts.now }
    requires every_2 { Every (HasArc net.now places.now (length binding.now)) inputs.now }
    ensures { IsTaken net.now places.now conjuncts.now inputs.now marking.now begins.now binding.now result keys.new amounts.new }
{
    let none = Gathered {
        some: false,
        arcs: 0,
        n: 0,
    };
    if !guard_holds(net, binding, conjuncts) {
        return none;
    }
    let all = gather(net, places, binding, inputs, 0, 0, keys, amounts);
    if !all.some {
        return none;
    }
    let n = all.n;
    let keys = &keys[..];
    let amounts = &amounts[..];
    if !covers(net, places, &keys[..n], &amounts[..n], marking, begins) {
        return none;
    }
    all
}

// Whether the binding is enabled.
pub fn is_enabled(
    net: &[u32],
    places: &[usize],
    conjuncts: &[usize],
    inputs: &[usize],
    marking: &[u32],
    begins: &[usize],
    binding: &[u32],
) -> bool
    requires places_fit { PlacesFit net.now places.now }
    requires begins_len { length begins.now ≡ 65 }
    requires inputs_len_bound { length inputs.now ≤ 8 }
    requires every { Every (HasConjunct net.now (length binding.now)) conjuncts.now }
    requires every_2 { Every (HasArc net.now places.now (length binding.now)) inputs.now }
    ensures { IsEnabledAt net.now places.now conjuncts.now inputs.now marking.now begins.now binding.now result }
{
    let mut keys = [0u64; 8];
    let mut amounts = [0u32; 8];
    let all = taken(
        net,
        places,
        conjuncts,
        inputs,
        marking,
        begins,
        binding,
        &mut keys,
        &mut amounts,
    );
    all.some
}

// The same behind the first `start` input arcs, of which it is known that they take `kept` keys. A search asks this of every binding it comes to; the steps
// are written out here, and not those of `taken`, so that they go into its loop.
pub fn enabled_behind(
    net: &[u32],
    places: &[usize],
    conjuncts: &[usize],
    inputs: &[usize],
    marking: &[u32],
    begins: &[usize],
    binding: &[u32],
    start: usize,
    kept: usize,
    keys: &mut [u64; 8],
    amounts: &mut [u32; 8],
) -> bool
    requires places_fit { PlacesFit net.now places.now }
    requires begins_len { length begins.now ≡ 65 }
    requires inputs_len_bound { length inputs.now ≤ 8 }
    requires keys_len { (length keys.old ≡ 8) × (length amounts.old ≡ 8) }
    requires every { Every (HasConjunct net.now (length binding.now)) conjuncts.now }
    requires every_2 { Every (HasArc net.now places.now (length binding.now)) inputs.now }
    requires known { Known net.now places.now binding.now inputs.now start kept keys.old amounts.old }
    ensures enabled_at { IsEnabledAt net.now places.now conjuncts.now inputs.now marking.now begins.now binding.now result }
    ensures keeps { Keeps kept keys.old amounts.old keys.new amounts.new }
{
    if !guard_passes(net, binding, conjuncts) {
        return false;
    }
    let all = gather_behind(net, places, binding, inputs, start, kept, keys, amounts);
    if !all.some {
        return false;
    }
    let n = all.n;
    let keys = &keys[..];
    let amounts = &amounts[..];
    covers(net, places, &keys[..n], &amounts[..n], marking, begins)
}
