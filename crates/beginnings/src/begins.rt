// Where the entries of each place begin in a marking that is known to be accepted: TOKEN words alone are looked at, and nothing is checked. The places are
// gone over in turn, since the net tells how large the entries of each are: no entry waits for what the one before it says.
// Rests on marking::index: it is the table that read_marking tells.
ghost use Rattle.std.specs.Prelude.{◌≡◌, ◌≤◌, ◌<◌, length};
ghost use Rattle.net.specs.Places.{places_at, PlacesFit};
ghost use Rattle.beginnings.specs.Indexed.{Accepted, Indexed, Passes};

use marking::index::begin_all;
use word::fields::payload;

// Where the entries of one place end, from a position on, each of so many words: a TOKEN word only tells where to stop.
fn pass_place(words: &[u32], from: usize, place: usize, size: usize) -> usize
    requires { (0 < size) × (size ≤ 5) }
    ensures { Passes words.now from place size result }
{
    let mut at = from;
    // A turn passes an entry, so that no index counts the turns.
    while at < words.len() {
        if (words[at] / 16384 % 256) as usize != place {
            return at;
        }
        at += size;
    }
    at
}

// The beginnings in an accepted marking on a net whose places stand at these positions. Entries rise by place, so that those of a place, if it has any,
// stand where those of the places before it end.
pub fn index_marking(net: &[u32], places: &[usize], words: &[u32], begins: &mut [usize; 65])
    requires places_fit { PlacesFit net.now places.now }
    requires begins_len { length begins.old ≡ 65 }
    requires accepted { Accepted (places_at net.now places.now) words.now }
    ensures { Indexed (places_at net.now places.now) words.now begins.new }
{
    let mut at = 0;
    for p in 0..places.len() {
        begins[p] = at;
        at = pass_place(words, at, p, 1 + payload(net[places[p]]) as usize);
    }
    begin_all(&mut begins[..], places.len(), 65, at);
}
