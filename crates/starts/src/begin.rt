// What a run starts from: refusals 1 to 5, then 6, then 7, then 9, or the index of the net.
ghost use Rattle.std.specs.Prelude.{◌≡◌, length};
ghost use Rattle.starts.specs.Start.{IsStart};

use accept::accepted::accept_net;
use marking::index::read_marking_in;
use marking::pick::{first_malformed, first_unknown};
use net::index::NetIndex;
use semantics::refusal::Refusal;
use word::size::at_most;

// Net, then the transitions of the picks, then the marking in the first m words of a buffer, then the picks. Where the parts of all transitions begin is
// written to a table.
pub fn begin(
    net: &[u32],
    buffer: &[u32],
    m: usize,
    picks: &[u32],
    table: &mut [usize],
) -> Result<NetIndex, Refusal>
    requires { length table.old ≡ 2080 }
    ensures { IsStart net.now buffer.now m picks.now result table.new }
{
    let index = accept_net(net, table)?;
    if let Some(p) = first_unknown(picks, at_most(64, index.transitions)) {
        return Err(Refusal::NoTransition(p));
    }
    let places = at_most(64, index.places);
    let places_at = index.places_at;
    let mut begins = [0usize; 65];
    read_marking_in(net, &places_at[..places], buffer, m, &mut begins)?;
    if let Some(p) = first_malformed(picks) {
        return Err(Refusal::BadPick(p));
    }
    Ok(index)
}
