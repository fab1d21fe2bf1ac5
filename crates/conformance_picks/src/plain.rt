// The plain run of document 01. Its state is an array of counts and the picks done; nothing of the engine is in it.
use conformance_lister::counting::count_tries;
use conformance_lister::flow::{give_outputs, take_inputs};
use conformance_lister::lister::{Listing, list_all};
use conformance_plain::build::front;
use conformance_plain::counts::{Counts, put_marking, read_marking};
use conformance_plain::reading::{Shape, get, kind, shape_of};
use conformance_plain::slots::Slots;
use semantics::Outcome;
use semantics::refusal::Refusal;

// What a run is handed beside net, picks and what its buffers hold: the budget, the marking's length, and the lengths of buffer, spare and menu.
#[derive(Clone, Copy)]
pub struct Given {
    pub budget: u32,
    pub m: usize,
    pub buffer: usize,
    pub spare: usize,
    pub menu: usize,
}

fn is_pick(w: u32) -> bool {
    kind(w) == 13 && w / 0x40_0000 % 64 == 0
}

// The transition that a pick names.
pub fn transition_of(w: u32) -> u32 {
    w / 0x4000 % 256
}

// The first well-formed pick of a transition that the net does not have.
fn first_unknown(net: &[u32], picks: &[u32]) -> Option<usize> {
    let count = get(net, 0) % 256;
    picks
        .iter()
        .position(|w| is_pick(*w) && count <= transition_of(*w))
}

// The first pick that is not well formed.
fn first_malformed(picks: &[u32]) -> Option<usize> {
    picks.iter().position(|w| !is_pick(*w))
}

// The answer to an input that is refused.
pub fn refused_input(r: Refusal) -> Outcome {
    Outcome {
        done: 0,
        stopped: Some(r),
        length: 0,
    }
}

// The counts of the marking, where picks and marking are accepted.
fn judge_input(net: &[u32], g: Given, buffer: &[u32], picks: &[u32]) -> Result<Counts, Refusal> {
    if let Some(unknown) = first_unknown(net, picks) {
        return Err(Refusal::NoTransition(unknown));
    }
    if g.buffer < g.m {
        return Err(Refusal::BadMarking(g.buffer));
    }
    let counts = read_marking(net, front(buffer, g.m)).map_err(Refusal::BadMarking)?;
    if let Some(malformed) = first_malformed(picks) {
        return Err(Refusal::BadPick(malformed));
    }
    Ok(counts)
}

// A run that ended: picks done, what stopped it, and the counts.
#[derive(Clone, Copy)]
struct State {
    done: usize,
    stopped: Option<Refusal>,
    counts: Counts,
}

// The counts after a step, where none is over 16,383 and their marking has room in buffer and spare.
fn judge_step(net: &[u32], g: Given, after: Counts) -> Result<Counts, Refusal> {
    if after.iter().any(|count| 16383 < *count) {
        return Err(Refusal::OverCount);
    }
    let mut words = [0u32; 1600];
    let length = put_marking(&mut words, net, &after);
    if g.buffer.min(g.spare) < length || 16384 < length {
        return Err(Refusal::OverRoom);
    }
    Ok(after)
}

// The step of an enabled binding.
fn step(g: Given, s: Shape<'_>, before: &Counts, b: Slots) -> Result<Counts, Refusal> {
    let after = take_inputs(s, before, b)
        .and_then(|left| give_outputs(s, &left, b))
        .ok_or(Refusal::BadOutput)?;
    judge_step(s.net, g, after)
}

// The tries of a transition's plan under counts, where they are not too many to count.
pub fn tries_of(s: Shape<'_>, c: &Counts) -> Option<u32> {
    let mut words = [0u32; 1600];
    let mut queue = [0u32; 73728];
    let length = put_marking(&mut words, s.net, c);
    let work = count_tries(s, front(&words, length), &mut queue)?;
    Some(work.tries)
}

// The binding at an index of a list.
fn binding_at(list: &[u32], s: Shape<'_>, index: u32) -> Slots {
    Slots::at(list, (index as usize).wrapping_mul(s.variables as usize))
}

// Whether a list has room, and a binding at the index that is picked.
fn judge_list(g: Given, l: Listing, index: u32) -> Result<(), Refusal> {
    if 16383 < l.count || g.menu < l.words {
        return Err(Refusal::OverMenu);
    }
    if l.count <= index {
        return Err(Refusal::NoSuchIndex);
    }
    Ok(())
}

// A pick of a transition, by the tries of its plan and the index of a binding.
fn take_binding(
    g: Given,
    s: Shape<'_>,
    before: &Counts,
    tries: u32,
    index: u32,
) -> Result<Counts, Refusal> {
    if g.budget < tries {
        return Err(Refusal::OverBudget);
    }
    let mut list = [0u32; 2400];
    let l = list_all(s, before, &mut list);
    judge_list(g, l, index)?;
    step(g, s, before, binding_at(&list, s, index))
}

// One pick: the counts after it or why it stops the run, where the tries of its plan are not too many to count.
fn take_pick(net: &[u32], g: Given, before: &Counts, w: u32) -> Option<Result<Counts, Refusal>> {
    let s = shape_of(net, transition_of(w));
    let tries = tries_of(s, before)?;
    Some(take_binding(g, s, before, tries, w % 0x4000))
}

// The picks in turn, up to the first one that stops the run, or up to one whose tries are too many to count.
fn take_picks(net: &[u32], g: Given, before: Counts, picks: &[u32]) -> Result<State, State> {
    let mut counts = before;
    for (done, w) in picks.iter().enumerate() {
        match take_pick(net, g, &counts, *w) {
            Some(Ok(after)) => counts = after,
            Some(Err(r)) => {
                return Ok(State {
                    done,
                    stopped: Some(r),
                    counts,
                });
            }
            None => {
                return Err(State {
                    done,
                    stopped: None,
                    counts,
                });
            }
        }
    }
    Ok(State {
        done: picks.len(),
        stopped: None,
        counts,
    })
}

// Whether a run that ends so clears spare and menu.
pub fn clears(stopped: Option<Refusal>) -> bool {
    stopped.is_none_or(|r| 10 <= r.number())
}

// The answer of a run that ended so, which leaves its marking in the buffer and zeros after it.
fn leave(net: &[u32], g: Given, st: State, buffer: &mut [u32]) -> Outcome {
    let room = g.buffer.min(buffer.len());
    buffer[..room].fill(0);
    Outcome {
        done: st.done,
        stopped: st.stopped,
        length: put_marking(buffer, net, &st.counts),
    }
}

// In the place of a refusal's number: the plan has more tries than this program counts.
pub const TOO_LARGE: u32 = 99;

// The answer to an accepted net, or what was done before a plan of more tries than this program counts; the buffer, as it was before the run, is left as it
// is after it.
pub fn run_plainly(
    net: &[u32],
    g: Given,
    buffer: &mut [u32],
    picks: &[u32],
) -> Result<Outcome, Outcome> {
    match judge_input(net, g, buffer, picks) {
        Ok(counts) => match take_picks(net, g, counts, picks) {
            Ok(st) => Ok(leave(net, g, st, buffer)),
            Err(st) => Err(leave(net, g, st, buffer)),
        },
        Err(r) => Ok(refused_input(r)),
    }
}
