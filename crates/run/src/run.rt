// The call run: picks fired one after the other, each from the marking that the one before it left.
ghost use Rattle.std.specs.Prelude.{◌≡◌};
ghost use Rattle.semantics.specs.Calls.{run_call};
ghost use Rattle.run.specs.Run.{Runnable, HasRunFrom, run_end};

use beginnings::begins::index_marking;
use picks::pick::pick_once;
use rests::keep::keep_rests;
use semantics::Outcome;
use semantics::refusal::Refusal;
use starts::begin::begin;
use word::size::at_most;

// Where a run ended: picks done, the refusal that stopped it, and the length of the marking.
#[derive(Clone, Copy)]
pub struct Ended {
    pub done: usize,
    pub stopped: Option<Refusal>,
    pub length: usize,
}

// Fires the picks in turn; the first one that is refused ends the run. Where the parts of the transitions begin stands in a table. Which arcs leaves look up
// is made out once for each transition. Where the places of the marking begin is made out once, and each pick moves it.
fn fire_picks(
    net: &[u32],
    places: &[usize],
    transitions: &[usize],
    parts: &[usize],
    budget: u32,
    buffer: &mut [u32],
    m: usize,
    spare: &mut [u32],
    menu: &mut [u32],
    picks: &[u32],
) -> Ended
    requires { Runnable net.now places.now transitions.now parts.now buffer.old m picks.now }
    ensures { HasRunFrom net.now budget buffer.old m spare.old menu.old picks.now result buffer.new }
{
    let mut rests = [0usize; 576];
    keep_rests(net, places, transitions, parts, &mut rests);
    let mut begins = [0usize; 65];
    index_marking(net, places, &buffer[..m], &mut begins);
    let mut done = 0;
    let mut length = m;
    // The run breaks with what it has come to at the first pick that is refused: a form that the project asks for.
    loop {
        if picks.len() <= done {
            break Ended {
                done,
                stopped: None,
                length,
            };
        }
        match pick_once(
            net,
            places,
            transitions,
            parts,
            &rests[..],
            budget,
            &mut begins,
            buffer,
            length,
            spare,
            menu,
            picks[done],
        ) {
            Err(refusal) => {
                break Ended {
                    done,
                    stopped: Some(refusal),
                    length,
                };
            }
            Ok(next) => {
                length = next;
                done += 1;
            }
        }
    }
}

// The first refusal of net, picks and marking; or the picks fired, the rest of the buffer, the spare and the menu cleared.
pub fn run(
    net: &[u32],
    budget: u32,
    buffer: &mut [u32],
    m: usize,
    spare: &mut [u32],
    menu: &mut [u32],
    picks: &[u32],
) -> Outcome
    ensures { run_end result buffer.new spare.new menu.new ≡ run_call net.now budget buffer.old m spare.old menu.old picks.now }
{
    let mut parts = [0usize; 2080];
    let index = match begin(net, buffer, m, picks, &mut parts) {
        Ok(index) => index,
        Err(refusal) => {
            return Outcome {
                done: 0,
                stopped: Some(refusal),
                length: 0,
            };
        }
    };
    let places = at_most(64, index.places);
    let transitions = at_most(64, index.transitions);
    let ended = fire_picks(
        net,
        &index.places_at[..places],
        &index.transitions_at[..transitions],
        &parts[..],
        budget,
        buffer,
        m,
        spare,
        menu,
        picks,
    );
    buffer[ended.length..].fill(0);
    spare.fill(0);
    menu.fill(0);
    Outcome {
        done: ended.done,
        stopped: ended.stopped,
        length: ended.length,
    }
}
