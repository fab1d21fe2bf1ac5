// A marking read whole: refusal 7, and where the entries of each place begin.
ghost use Rattle.std.specs.Prelude.{◌≡◌, ◌≤◌, ◌+◌, length};
ghost use Rattle.semantics.specs.Refusal.{bad_marking};
ghost use Rattle.semantics.specs.Reading.{numbered};
ghost use Rattle.semantics.specs.Marking.{read_entry};
ghost use Rattle.net.specs.Skim.{changed};
ghost use Rattle.net.specs.Places.{places_at, PlacesFit};
ghost use Rattle.marking.specs.Marked.{entry_place, entry_read, Begun, rises_after, IsMarking, IsMarkingIn};

use crate::entry::read_entry;
use colours::order::values_before;
use semantics::refusal::Refusal;

// The places from one number to another begin here.
pub fn begin_all(begins: &mut [usize], from: usize, to: usize, at: usize)
    requires { to ≤ length begins.old }
    ensures { Begun begins.old from to at begins.new }
{
    for p in from..to {
        begins[p] = at;
    }
}

// Whether an entry with n components on the place p stands after the entry before it, if there is one.
fn rises(words: &[u32], last: usize, place: usize, at: usize, p: usize, n: usize) -> bool
    requires { (last ≤ at) × (at + 1 + n ≤ length words.now) }
    ensures { result ≡ rises_after words.now last place at p n }
{
    if at == 0 {
        return true;
    }
    if place < p {
        return true;
    }
    if p < place {
        return false;
    }
    values_before(words, last + 1, at + 1, n)
}

// The place of the entry at a position and the position after it, any refusal being 7.
fn entry_at(
    net: &[u32],
    places: &[usize],
    words: &[u32],
    at: usize,
) -> Result<(usize, usize), Refusal>
    requires { PlacesFit net.now places.now }
    ensures { entry_read result ≡ numbered bad_marking (changed entry_place (read_entry (places_at net.now places.now) words.now at)) }
{
    read_entry(net, places, words, at).map_err(|e| Refusal::BadMarking(e.position()))
}

// Where the marking ends that the words are, on a net whose places stand at these positions. Where the entries of each
// place begin is written to a table; those of the last end where 64 begins.
pub fn read_marking(
    net: &[u32],
    places: &[usize],
    words: &[u32],
    begins: &mut [usize],
) -> Result<usize, Refusal>
    requires places_fit { PlacesFit net.now places.now }
    requires begins_len { length begins.old ≡ 65 }
    ensures { IsMarking (places_at net.now places.now) words.now result begins.new }
{
    begins[0] = 0;
    let mut last = 0;
    let mut place = 0;
    let mut at = 0;
    // An entry is as long as its place says, so that no index counts the turns.
    while at < words.len() {
        let (p, next) = entry_at(net, places, words, at)?;
        if !rises(words, last, place, at, p, next - at - 1) {
            return Err(Refusal::BadMarking(at));
        }
        begin_all(begins, place + 1, p + 1, at);
        last = at;
        place = p;
        at = next;
    }
    begin_all(begins, place + 1, 65, at);
    Ok(at)
}

// The marking in the first m words of a buffer; m beyond the buffer is refused at the buffer's length.
pub fn read_marking_in(
    net: &[u32],
    places: &[usize],
    buffer: &[u32],
    m: usize,
    begins: &mut [usize],
) -> Result<usize, Refusal>
    requires places_fit { PlacesFit net.now places.now }
    requires begins_len { length begins.old ≡ 65 }
    ensures { IsMarkingIn (places_at net.now places.now) buffer.now m result begins.new }
{
    if buffer.len() < m {
        return Err(Refusal::BadMarking(buffer.len()));
    }
    read_marking(net, places, &buffer[..m], begins)
}
