// The words of the new marking are written from a list of changes, in one pass over the old ones.
ghost use Rattle.std.specs.Prelude.{◌≡◌, ◌≤◌, ◌<◌, ◌+◌, length};
ghost use Rattle.semantics.specs.Marking.{entry_words};
ghost use Rattle.net.specs.Places.{PlacesFit};
ghost use Rattle.arcs.specs.Keys.{key_place, key_colour};
ghost use Rattle.patch.specs.Patch.{written};
ghost use Rattle.changes.specs.Tables.{keys_told, ats_told, olds_told, counts_told};
ghost use Rattle.rewriting.specs.Writes.{Writable, IsWritten};

use changes::change::Row;
use occurrence::cover::width_of;
use patch::entry::write_entry;
use patch::words::copy_words;

// Writes the entry of a key with a count, none for 0; tells where it ends.
fn write_key(
    net: &[u32],
    places: &[usize],
    key: u64,
    count: u32,
    next: &mut [u32],
    at: usize,
) -> usize
    requires places_fit { PlacesFit net.now places.now }
    requires key_in_bounds { (key_place key < length places.now) × (count < 16384) }
    requires count_in_bounds { at + length (entry_words (key_place key) (key_colour net.now places.now key) count) ≤ length next.old }
    ensures { (next.new ≡ written next.old at (entry_words (key_place key) (key_colour net.now places.now key) count)) × (result ≡ at + length (entry_words (key_place key) (key_colour net.now places.now key) count)) }
{
    let width = width_of(net, places, key);
    let place = (key / 0x100_0000_0000_0000) as usize;
    write_entry(place, width, key % 0x100_0000_0000_0000, count, next, at)
}

// Writes the new marking and tells its length: words between changed entries are copied, changed entries are written.
pub fn write_listed(
    net: &[u32],
    places: &[usize],
    marking: &[u32],
    rows: &[Row; 16],
    n: usize,
    next: &mut [u32],
) -> usize
    requires { Writable net.now places.now marking.now (keys_told rows.now) (ats_told rows.now) (olds_told rows.now) (counts_told rows.now) n next.old }
    ensures { IsWritten net.now places.now marking.now (keys_told rows.now) (ats_told rows.now) (olds_told rows.now) (counts_told rows.now) n next.old result next.new }
{
    let end = marking.len();
    let mut from = 0;
    let mut at = 0;
    for i in 0..n {
        let row = rows[i];
        copy_words(marking, from, row.at, next, at);
        at = write_key(net, places, row.key, row.count, next, at + (row.at - from));
        from = row.at + row.old;
    }
    copy_words(marking, from, end, next, at);
    at + (end - from)
}
