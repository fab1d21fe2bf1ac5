// One entry of a marking: its TOKEN word and its values, each in the range of its place.
ghost use Rattle.std.specs.Prelude.{◌≡◌};
ghost use Rattle.semantics.specs.Marking.{Entry, read_entry};
ghost use Rattle.net.specs.Skim.{changed};
ghost use Rattle.net.specs.Places.{places_at, PlacesFit};
ghost use Rattle.semantics.proofs.ReadEntries.{token_in};
ghost use Rattle.marking.specs.Marked.{entry_read, entry_place};

use colours::values::read_values;
use kinds::take::take;
use semantics::refusal::Refusal;
use word::fields::payload;

// Whether the 28 bits of a TOKEN word name one of so many places and a count of at least 1.
fn fits_token(p: u32, places: usize) -> bool
    ensures { result ≡ token_in places p }
{
    p < 4194304 && ((p / 16384 % 256) as usize) < places && 1 <= p % 16384
}

// The place of the entry at a position and the position after it; `places` has the positions of the net's places.
pub fn read_entry(
    net: &[u32],
    places: &[usize],
    words: &[u32],
    at: usize,
) -> Result<(usize, usize), Refusal>
    requires { PlacesFit net.now places.now }
    ensures { entry_read result ≡ changed entry_place (read_entry (places_at net.now places.now) words.now at) }
{
    let p = take(words, at, 11)?;
    if !fits_token(p, places.len()) {
        return Err(Refusal::BadWord(at));
    }
    let place = (p / 16384 % 256) as usize;
    let from = places[place];
    let n = payload(net[from]) as usize;
    let next = read_values(words, at + 1, net, from + 1, n)?;
    Ok((place, next))
}
