// Nets that are accepted, as their index: 1 to 3 by the reader, then 4 where the net stands alone, then 5.
ghost use Rattle.std.specs.Prelude.{◌≡◌, ◌≤◌, length};
ghost use Rattle.expression.specs.Skip.{forget, skipped};
ghost use Rattle.accept.specs.Front.{settle, accept_to, IsExtent, IsIndex};

use kinds::take::take;
use net::index::{NetIndex, read_places};
use plans::plan::{Reviewed, read_plans};
use semantics::refusal::Refusal;

// Where a net ends that was read: 4 where it ends before the word `least`, then 5 where a plan is at fault.
fn settled(plans: Reviewed, least: usize) -> Result<usize, Refusal>
    ensures { result ≡ settle least plans.end plans.fault }
{
    if plans.end < least {
        return Err(Refusal::WordsLeft(plans.end));
    }
    match plans.fault {
        Some(at) => Err(Refusal::UnfitPlan(at)),
        None => Ok(plans.end),
    }
}

// Where a net ends, and how many places and transitions it has.
#[derive(Clone, Copy)]
pub struct Extent {
    pub end: usize,
    pub places: usize,
    pub transitions: usize,
}

// The net at the front of words, refused with 4 where it ends before the word `least`; where its places begin, their widths and where its
// transitions begin are written to three tables, and where the parts of its transitions from `first` on begin to a fourth, 32 numbers for each; its last 32
// numbers serve all others.
pub fn accept_into(
    words: &[u32],
    least: usize,
    places_at: &mut [usize],
    widths: &mut [usize],
    transitions_at: &mut [usize],
    first: usize,
    table: &mut [usize],
) -> Result<Extent, Refusal>
    requires places_at_len { length places_at.old ≡ 64 }
    requires widths_len { length widths.old ≡ 64 }
    requires transitions_at_len { length transitions_at.old ≡ 64 }
    requires in_bounds { 32 ≤ length table.old }
    ensures { IsExtent words.now least places_at.new widths.new transitions_at.new first table.new result }
{
    let w = take(words, 0, 1)?;
    let places = (w / 256 % 256) as usize;
    let transitions = (w % 256) as usize;
    let from = read_places(words, places_at, widths, places, 1)?;
    let plans = read_plans(
        words,
        &widths[..places],
        transitions_at,
        transitions,
        first,
        table,
        from,
    )?;
    let end = settled(plans, least)?;
    Ok(Extent {
        end,
        places,
        transitions,
    })
}

// The net that the words are; where the parts of its transitions begin is written to a table, 32 numbers for each.
pub fn accept_net(words: &[u32], table: &mut [usize]) -> Result<NetIndex, Refusal>
    requires { 32 ≤ length table.old }
    ensures { IsIndex words.now table.new result }
{
    let mut places = [0usize; 64];
    let mut widths = [0usize; 64];
    let mut transitions = [0usize; 64];
    let net = accept_into(
        words,
        words.len(),
        &mut places,
        &mut widths,
        &mut transitions,
        0,
        table,
    )?;
    Ok(NetIndex {
        end: net.end,
        places: net.places,
        transitions: net.transitions,
        places_at: places,
        widths: widths,
        transitions_at: transitions,
    })
}

// Where the net at the front of words ends, or why it is refused, with 4 where it ends before the word `least`.
pub fn accepted_end(words: &[u32], least: usize) -> Result<usize, Refusal>
    ensures { skipped result ≡ forget (accept_to words.now least) }
{
    let mut places = [0usize; 64];
    let mut widths = [0usize; 64];
    let mut transitions = [0usize; 64];
    let mut table = [0usize; 32];
    let net = accept_into(
        words,
        least,
        &mut places,
        &mut widths,
        &mut transitions,
        0,
        &mut table,
    )?;
    Ok(net.end)
}
