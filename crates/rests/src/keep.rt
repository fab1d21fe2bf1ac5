// Which input arcs leaves of a search look up, made out once for each transition of a net and kept for all its picks.
ghost use Rattle.std.specs.Prelude.{◌≡◌, length};
ghost use Rattle.semantics.specs.Plan.{accept_net};
ghost use Rattle.search.specs.Scene.{net_of};
ghost use Rattle.starts.specs.Known.{NetKnown};
ghost use Rattle.rests.specs.Rests.{Restable, Rest, RestsKept};

use spares::spare::leave_out;

// Writes the nine numbers of one transition: up to eight positions, and how many of them count. Its parts stand at these 32 positions, by its word.
fn keep_rest(net: &[u32], places: &[usize], head: u32, own: &[usize], row: &mut [usize])
    requires restable { Restable net.now places.now head own.now }
    requires row_len { length row.old ≡ 9 }
    ensures { Rest net.now places.now head own.now row.new }
{
    let inputs = (head / 16 % 16) as usize;
    let elements = (head / 65536 % 16) as usize;
    row[8] = leave_out(
        net,
        places,
        &own[..inputs],
        &own[24..24 + elements],
        &mut row[..8],
    );
}

// Writes those of all transitions of a net, nine for each, in the order of the transitions.
pub fn keep_rests(
    net: &[u32],
    places: &[usize],
    transitions: &[usize],
    parts: &[usize],
    rests: &mut [usize],
)
    requires net_known { NetKnown net.now places.now transitions.now parts.now (net_of (accept_net net.now)) }
    requires rests_len { length rests.old ≡ 576 }
    ensures { RestsKept net.now places.now transitions.now parts.now (length transitions.now) rests.new }
{
    for t in 0..transitions.len() {
        let from = t * 32;
        let at = t * 9;
        keep_rest(
            net,
            places,
            net[transitions[t]],
            &parts[from..from + 32],
            &mut rests[at..at + 9],
        );
    }
}
