// Whether a marking covers what input arcs take: sums by key, held against counts.
ghost use Rattle.std.specs.Prelude.{◌≡◌, ◌≤◌, ◌<◌, ◌^◌, length};
ghost use Rattle.semantics.specs.Lists.{Every};
ghost use Rattle.net.specs.Places.{PlacesFit};
ghost use Rattle.counts.specs.Counts.{IsSpot};
ghost use Rattle.arcs.specs.Keys.{key_place, width_of, key_colour, KeyFits};
ghost use Rattle.gathering.specs.Gather.{sum_of};
ghost use Rattle.occurrence.specs.Answers.{is_repeated, IsCovered};

use counts::find::{Spot, find};
use word::fields::payload;

// The components of the place of a key.
pub fn width_of(net: &[u32], places: &[usize], key: u64) -> usize
    requires places_fit { PlacesFit net.now places.now }
    requires key_in_bounds { key_place key < length places.now }
    ensures { (result ≡ width_of net.now places.now (key_place key)) × (result ≤ 4) }
{
    let place = (key / 0x100_0000_0000_0000) as usize;
    let at = places[place];
    payload(net[at]) as usize
}

// The entry of a key in a marking with the beginnings of its places.
pub fn spot_of(net: &[u32], places: &[usize], marking: &[u32], begins: &[usize], key: u64) -> Spot
    requires places_fit { PlacesFit net.now places.now }
    requires begins_len { length begins.now ≡ 65 }
    requires key_fits { KeyFits net.now places.now key }
    ensures { IsSpot marking.now begins.now (key_place key) (key_colour net.now places.now key) result }
{
    let place = (key / 0x100_0000_0000_0000) as usize;
    let width = width_of(net, places, key);
    find(marking, begins, place, width, key % 0x100_0000_0000_0000)
}

// An amount, to be added to others.
pub fn wide(x: u32) -> u64
    ensures { (result ≡ x) × (result < 2 ^ 32) }
{
    u64::from(x)
}

// The sum of the amounts of a key.
pub fn total_of(keys: &[u64], amounts: &[u32], key: u64) -> u64
    requires { (length keys.now ≤ 8) × (length amounts.now ≡ length keys.now) }
    ensures { result ≡ sum_of keys.now amounts.now key }
{
    let mut sum = 0;
    for j in 0..keys.len() {
        if keys[j] == key {
            sum += u64::from(amounts[j]);
        }
    }
    sum
}

// Whether the key at an index is the one before it again.
fn repeats(keys: &[u64], i: usize) -> bool
    requires { i < length keys.now }
    ensures { result ≡ is_repeated keys.now i }
{
    0 < i && keys[i - 1] == keys[i]
}

// Whether the marking, with the beginnings of its places, covers the amounts of all keys.
pub fn covers(
    net: &[u32],
    places: &[usize],
    keys: &[u64],
    amounts: &[u32],
    marking: &[u32],
    begins: &[usize],
) -> bool
    requires places_fit { PlacesFit net.now places.now }
    requires begins_len { length begins.now ≡ 65 }
    requires keys_len_bound { (length keys.now ≤ 8) × (length amounts.now ≡ length keys.now) }
    requires every { Every (KeyFits net.now places.now) keys.now }
    ensures { IsCovered net.now places.now keys.now amounts.now marking.now begins.now result }
{
    for i in 0..keys.len() {
        if !repeats(keys, i) {
            let key = keys[i];
            let spot = spot_of(net, places, marking, begins, key);
            if (spot.count as u64) < total_of(keys, amounts, key) {
                return false;
            }
        }
    }
    true
}
