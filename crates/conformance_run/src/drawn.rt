// Drawn runs: a net of one to three transitions with their plans, a marking, picks, a budget and buffers, some of them damaged or short.
use crate::compare::{Case, Compared, Due, Told};
use conformance_draw::draw::{Draft, Pen, jump, next, pick};
use conformance_draw::nets::{marking, places, transition};
use conformance_draw::plans::draw_plan;
use conformance_lister::lister::list_all;
use conformance_picks::plain::{
    Given, clears, refused_input, run_plainly, transition_of, tries_of,
};
use conformance_plain::build::{copy, front, put};
use conformance_plain::counts::{Counts, counts_of};
use conformance_plain::reading::{get, shape_of};
use conformance_report::report::{fill, heading};
use semantics::refusal::Refusal;

// All runs. The kinds are printed from here on, in turn, those of `compare` among them.
const RUNS: usize = 17;

// Runs whose plans have more tries than are counted; they are left out.
const LARGE: usize = 18;

// Runs without picks.
const NO_PICKS: usize = 22;

// Runs whose spare is shorter than their buffer.
const SHORT_SPARE: usize = 23;

// Transitions with their plans.
fn transitions(d: &mut Pen<'_>, places: u32, count: u32) {
    for t in 0..count {
        transition(d, places);
        draw_plan(d, t);
    }
}

// A net of one to three places and one to three transitions.
fn draw_net(net: &mut [u32], seed: u64) -> Draft {
    let mut d = Pen {
        words: net,
        at: 0,
        seed,
    };
    let place_count = d.draw(3) % 4 + 1;
    let transition_count = d.draw(3) % 4 + 1;
    d.word(0x1000_0000 + place_count * 256 + transition_count);
    places(&mut d, place_count);
    transitions(&mut d, place_count, transition_count);
    d.end()
}

// How many enabled bindings a transition has.
fn list_size(net: &[u32], c: &Counts, t: u32) -> u32 {
    let mut list = [0; 2400];
    list_all(shape_of(net, t), c, &mut list).count
}

// How many enabled bindings each transition has.
fn list_sizes(net: &[u32], c: &Counts, sizes: &mut [u32]) {
    for t in 0..get(net, 0) % 256 {
        put(sizes, t as usize, list_size(net, c, t));
    }
}

// No transition has an enabled binding. Most of these nets are left out, since a run ends there at its first pick.
fn is_dead(sizes: &[u32]) -> bool {
    sizes.iter().all(|size| *size == 0)
}

// A PICK word.
fn pick_word(transition: u32, index: u32) -> u32 {
    0xD000_0000 + transition % 256 * 0x4000 + index % 0x4000
}

// The second of two transitions where the first has no enabled binding.
fn livelier(sizes: &[u32], a: u32, b: u32) -> u32 {
    if get(sizes, a as usize) == 0 { b } else { a }
}

// A pick of a transition that the net has: of its first binding, of any or of one too many, as the marking is before the run.
fn fit_pick(sizes: &[u32], seed: u64) -> u32 {
    let b = next(seed);
    let c = next(b);
    let count = (sizes.len() % 0x100) as u32;
    let t = livelier(sizes, pick(seed, count), pick(b, count));
    let size = get(sizes, t as usize);
    match pick(c, 16) {
        0..=7 => pick_word(t, 0),
        8..=14 => pick_word(t, pick(next(c), size)),
        _ => pick_word(t, size),
    }
}

// A pick: mostly one that is well formed and whose transition the net has.
fn draw_pick(sizes: &[u32], seed: u64) -> u32 {
    let w = fit_pick(sizes, next(seed));
    match pick(seed, 150) {
        0 => w.wrapping_sub(0x1000_0000),
        1 => w.wrapping_add(0x40_0000),
        2 => pick_word((sizes.len() % 0x100) as u32, 0),
        3 => pick_word(255, 0),
        _ => w,
    }
}

// A list of picks; answers the state of the sequence.
fn draw_picks(picks: &mut [u32], sizes: &[u32], seed: u64, count: usize) -> u64 {
    let mut s = seed;
    for w in picks.iter_mut().take(count) {
        s = jump(s);
        *w = draw_pick(sizes, s);
    }
    s
}

// A budget: plenty, or about what is asked for.
fn budget_of(k: u32, tries: u32) -> u32 {
    match k {
        0 => tries.wrapping_sub(1) % 0x1000,
        1 => tries,
        2 => tries.wrapping_add(3),
        _ => 1_000_000,
    }
}

// A length: plenty, or about what is asked for.
fn length_of(k: u32, n: usize) -> usize {
    match k {
        0 => n.saturating_sub(1),
        1..=2 => n,
        3..=4 => n.wrapping_add(1),
        5..=6 => n.wrapping_add(2),
        7 => n.wrapping_add(4),
        _ => n.wrapping_add(60),
    }
}

// What a run is handed: budget and menu by what the first pick asks for.
fn draw_given(net: &[u32], c: &Counts, m: usize, sizes: &[u32], first: u32, seed: u64) -> Given {
    let a = next(seed);
    let b = next(a);
    let d = next(b);
    let s = shape_of(net, transition_of(first));
    let size = get(sizes, transition_of(first) as usize);
    let words = (s.variables as usize).wrapping_mul(size as usize) % 0x1_0000;
    Given {
        budget: budget_of(pick(seed, 16), tries_of(s, c).unwrap_or(0)),
        m,
        buffer: length_of(pick(a, 20), m),
        spare: length_of(pick(b, 20), m),
        menu: length_of(pick(d, 20), words),
    }
}

// A word of a marking, now and then changed: a count or a value by one, a stray bit, another place, another kind.
fn damaged(w: u32, k: u32) -> u32 {
    match k {
        0 => w.wrapping_add(1),
        1 => w.wrapping_sub(1),
        2 => w.wrapping_add(0x40_0000),
        3 => w.wrapping_add(0x4000),
        4 => w.wrapping_add(0x1000_0000),
        _ => w,
    }
}

// The same of one of the first m words.
fn damage(words: &mut [u32], m: usize, seed: u64) {
    let at = pick(seed, (m % 0x1_0000) as u32) as usize;
    if let Some(w) = words.get_mut(at) {
        *w = damaged(*w, pick(next(seed), 100));
    }
}

// A run of an accepted net against the plain run.
fn compare_plain(t: &mut Compared, c: Case<'_>) {
    let mut after = [0; 1600];
    copy(c.before, &mut after, 1600);
    let Ok(o) = run_plainly(c.net, c.given, &mut after, c.picks) else {
        t.tally.add(LARGE, 1);
        return;
    };
    t.tally.add_if(NO_PICKS, c.picks.is_empty());
    t.tally.add_if(SHORT_SPARE, c.given.spare < c.given.buffer);
    let d = Due {
        told: Told::from(o),
        after: &after,
        cleared: clears(o.stopped),
    };
    t.compare(c, d);
}

// A run that is refused for its net, and leaves its buffers.
fn compare_refused(t: &mut Compared, c: Case<'_>, r: Refusal) {
    let d = Due {
        told: Told::from(refused_input(r)),
        after: c.before,
        cleared: false,
    };
    t.compare(c, d);
}

// A run on a net of so many words: of the net a word short, with a word too many, or as it is. The case has the words after the net too.
fn compare_run(t: &mut Compared, c: Case<'_>, length: usize, k: u32) {
    let with = |n: usize| Case {
        net: front(c.net, n),
        ..c
    };
    match k {
        0 => {
            let cut = length.saturating_sub(1);
            compare_refused(t, with(cut), Refusal::NetEndsEarly(cut));
        }
        1 => compare_refused(t, with(length.wrapping_add(1)), Refusal::WordsLeft(length)),
        _ => compare_plain(t, with(length)),
    }
}

// What is drawn for a net with a marking: the picks and their number, what the run is handed beside them, and the state of the sequence.
#[derive(Clone, Copy)]
struct Draw {
    picks: [u32; 8],
    count: usize,
    given: Given,
    seed: u64,
}

// A run of a net with a marking of m words, whose transitions have so many enabled bindings. It is left out where none has any, but for one in twelve.
fn draw_run(net: &[u32], c: &Counts, m: usize, sizes: &[u32], seed: u64) -> Option<Draw> {
    if is_dead(sizes) && pick(jump(seed), 12) != 0 {
        return None;
    }
    let mut picks = [0; 8];
    let count = pick(seed, 9) as usize;
    let s = jump(draw_picks(&mut picks, sizes, next(seed), count));
    Some(Draw {
        picks,
        count,
        given: draw_given(net, c, m, sizes, picks[0], s),
        seed: jump(s),
    })
}

// A run of a net with a marking, where it is not left out.
fn draw_of(net: &[u32], marking: &[u32], seed: u64) -> Option<Draw> {
    let mut sizes = [0; 4];
    let c = counts_of(net, marking);
    list_sizes(net, &c, &mut sizes);
    let live = front(&sizes, (get(net, 0) % 256) as usize);
    draw_run(net, &c, marking.len(), live, seed)
}

// A run of a net of so many words with its marking in the first m words of a buffer; the marking is damaged or not.
fn sample_of(
    t: &mut Compared,
    net: &[u32],
    length: usize,
    before: &mut [u32],
    m: usize,
    seed: u64,
) {
    let Some(r) = draw_of(front(net, length), front(before, m), seed) else {
        return;
    };
    damage(before, m, r.seed);
    t.tally.add(RUNS, 1);
    let c = Case {
        net,
        given: r.given,
        before,
        picks: front(&r.picks, r.count),
    };
    compare_run(t, c, length, pick(jump(r.seed), 60));
}

// One run.
fn sample(t: &mut Compared, seed: u64) {
    let mut net = [0; 1024];
    let mut before = [0; 1600];
    fill(&mut before);
    let n = draw_net(&mut net, seed);
    let m = marking(&mut before, n.seed, front(&net, n.at));
    sample_of(t, &net, n.at, &mut before, m.at, next(m.seed));
}

fn samples(count: u32) -> Compared {
    let mut t = Compared::new();
    let mut seed = 2026;
    for _ in 0..count {
        sample(&mut t, seed);
        seed = jump(seed);
    }
    t
}

pub fn all() {
    heading(b"Runs drawn of 6000 nets and markings");
    let t = samples(6000).tally;
    t.lines(
        &[
            "runs",
            "with too many tries to count, left out",
            "picks done",
            "two picks done and more",
            "refused after a pick was done",
            "no picks",
            "spare shorter than buffer",
        ],
        RUNS,
    );
    io::write_all(1, b"\nruns by how they end\n");
    t.answers("no refusal");
    t.end();
}
