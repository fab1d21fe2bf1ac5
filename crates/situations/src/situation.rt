// What the calls on a transition and a marking start from: refusals 1 to 7, then the index of all three. How many structures there are is
// answered; where they begin stands in tables that the caller lends, so that none is copied. Rests on accept, net::index and marking::index.
ghost use Rattle.std.specs.Prelude.{◌≡◌, length};
ghost use Rattle.situations.specs.Situation.{IsSituation};

use accept::accepted::accept_into;
use marking::index::read_marking;
use net::index::{Parts, parts_of};
use semantics::refusal::Refusal;
use word::size::at_most;

// How many places an accepted net has, the position of one of its transitions and how many of each part it has.
#[derive(Clone, Copy)]
pub struct Situation {
    pub places: usize,
    pub position: usize,
    pub transition: Parts,
}

// Net, then transition, then marking. Where the net's places begin, the transition's parts, and the entries of each place in the marking, is written to three
// tables. Of the second the first 32 numbers have the parts, eight for each kind; the reader uses the others for the transitions that are not wanted. The third
// serves first for the positions of the transitions, of which one is wanted.
pub fn prepare(
    net: &[u32],
    transition: u32,
    marking: &[u32],
    places_at: &mut [usize],
    own: &mut [usize],
    begins: &mut [usize],
) -> Result<Situation, Refusal>
    requires { (length places_at.old ≡ 64) × (length own.old ≡ 64) × (length begins.old ≡ 65) }
    ensures { IsSituation net.now transition marking.now result places_at.new own.new begins.new }
{
    let mut widths = [0usize; 64];
    let number = transition as usize;
    let extent = accept_into(
        net,
        net.len(),
        places_at,
        &mut widths,
        &mut begins[..64],
        number,
        own,
    )?;
    if at_most(64, extent.transitions) <= number {
        return Err(Refusal::NoTransition(0));
    }
    let position = begins[number];
    let places = at_most(64, extent.places);
    read_marking(net, &places_at[..places], marking, begins)?;
    Ok(Situation {
        places,
        position,
        transition: parts_of(net[position]),
    })
}
