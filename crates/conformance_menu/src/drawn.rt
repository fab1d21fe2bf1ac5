// Drawn nets and markings, each with two plans: menu against the lister and the count of tries.
use crate::case_kinds::{CASES, NO_VARIABLES, OVER, TWO_PLANS, count_kinds};
use crate::compare::{Call, Compared, Found, Input, Refused};
use conformance_draw::draw::{Draft, Pen, jump, next, pick};
use conformance_draw::nets::{Head, beside, draw_head, marking};
use conformance_draw::plans::draw_plan;
use conformance_lister::counting::count_tries;
use conformance_lister::lister::{Listing, list_all};
use conformance_plain::build::{copy, front, put};
use conformance_plain::counts::counts_of;
use conformance_plain::reading::{get, shape_of};
use conformance_report::report::heading;
use semantics::Listed;
use semantics::refusal::Refusal;

// A call that is refused for its input.
fn compare_refused(t: &mut Compared, input: Input<'_>, r: Refusal) {
    let c = Call {
        input,
        budget: 9,
        room: 4,
    };
    t.compare(c, Err(Refused::from(r)));
}

// A call with the net a word short, no such transition, or a TOKEN with nothing after it, which is put at the end of the marking, of so many words.
fn compare_spoilt(
    t: &mut Compared,
    net: &[u32],
    transition: u32,
    words: &mut [u32],
    length: usize,
    k: u32,
) {
    match k {
        0 => {
            let cut = net.len().saturating_sub(1);
            let input = Input {
                net: front(net, cut),
                transition: 7,
                marking: front(words, length),
            };
            compare_refused(t, input, Refusal::NetEndsEarly(cut));
        }
        1 => {
            let input = Input {
                net,
                transition: get(net, 0) % 256,
                marking: front(words, length),
            };
            compare_refused(t, input, Refusal::NoTransition(0));
        }
        _ => {
            let end = put(words, length, 0xB000_0001);
            let input = Input {
                net,
                transition,
                marking: front(words, end),
            };
            compare_refused(t, input, Refusal::BadMarking(end));
        }
    }
}

// Two nets that differ only in their plans: their lengths, the number of the drawn transition, and the state of the sequence.
#[derive(Clone, Copy)]
struct Pair {
    first: usize,
    second: usize,
    transition: u32,
    seed: u64,
}

// The words after the drawn transition.
fn finish(d: &mut Pen<'_>, k: u32) {
    if k % 3 == 1 {
        beside(d, k);
    }
}

// A plan for the drawn transition, and the words after it.
fn draw_rest(words: &mut [u32], h: Head, seed: u64, k: u32) -> Draft {
    let mut d = Pen {
        words,
        at: h.at,
        seed,
    };
    draw_plan(&mut d, h.transition);
    finish(&mut d, k);
    d.end()
}

fn draw_nets(net: &mut [u32], other: &mut [u32], seed: u64) -> Pair {
    let s = next(seed);
    let k = pick(s, 12);
    let h = draw_head(net, s, k);
    copy(net, other, h.at);
    let a = draw_rest(net, h, h.seed, k);
    let b = draw_rest(other, h, a.seed, k);
    Pair {
        first: a.at,
        second: b.at,
        transition: h.transition,
        seed: b.seed,
    }
}

// An accepted input with its list; for a second plan, the list has to be that of the first.
pub fn compare_net(t: &mut Compared, input: Input<'_>, list: &[u32], l: Listing, second: bool) {
    let mut queue = [0; 147465];
    let s = shape_of(input.net, input.transition);
    let Some(w) = count_tries(s, input.marking, &mut queue) else {
        t.tally.add(OVER, 1);
        return;
    };
    count_kinds(&mut t.tally, input, list, l, &queue, w);
    t.tally.add_if(TWO_PLANS, second);
    let listed = Listed {
        bindings: l.count,
        tries: w.tries,
    };
    t.compare_all(
        input,
        Found {
            listed,
            words: front(list, l.words),
        },
    );
}

// Two nets that differ only in their plans, with a marking; the second one where its plan is another.
fn compare_plans(t: &mut Compared, input: Input<'_>, other: &[u32]) {
    let mut list = [0; 16400];
    let counts = counts_of(input.net, input.marking);
    let l = list_all(shape_of(input.net, input.transition), &counts, &mut list);
    compare_net(t, input, &list, l, false);
    if input.net != other {
        compare_net(
            t,
            Input {
                net: other,
                ..input
            },
            &list,
            l,
            true,
        );
    }
}

// The same with a marking that is drawn; then a net or a marking that is spoilt.
fn judge(t: &mut Compared, p: Pair, net: &[u32], other: &[u32]) {
    let mut words = [0; 512];
    let m = marking(&mut words, p.seed, net);
    let input = Input {
        net,
        transition: p.transition,
        marking: front(&words, m.at),
    };
    compare_plans(t, input, other);
    let k = pick(next(m.seed), 3);
    compare_spoilt(t, net, p.transition, &mut words, m.at, k);
}

// A call on a net of so many words whose first element names no variable.
fn compare_unfit(t: &mut Compared, net: &mut [u32], length: usize, transition: u32) {
    let s = shape_of(net, transition);
    if s.elements == 0 {
        return;
    }
    let at = s.elements_at;
    put(net, at, 0xA000_02FF);
    let input = Input {
        net: front(net, length),
        transition,
        marking: &[],
    };
    compare_refused(t, input, Refusal::UnfitPlan(at));
}

// One case; then its first net with an unfit element.
fn sample(t: &mut Compared, seed: u64) {
    let mut net = [0; 256];
    let mut other = [0; 256];
    let p = draw_nets(&mut net, &mut other, seed);
    judge(t, p, front(&net, p.first), front(&other, p.second));
    compare_unfit(t, &mut net, p.first, p.transition);
}

fn samples(count: u32) -> Compared {
    let mut t = Compared::new();
    let mut seed = 2026;
    for _ in 0..count {
        sample(&mut t, seed);
        seed = jump(seed);
    }
    t
}

pub fn all() {
    heading(b"2000 drawn nets and markings");
    let t = samples(2000).tally;
    t.lines(
        &[
            "plans",
            "plans too large to count",
            "second plans of a net",
            "with bindings",
            "bindings",
            "tries",
        ],
        CASES,
    );
    io::write_all(1, b"\nplans by kind\n");
    t.lines(
        &[
            "no variables",
            "match first",
            "solve first",
            "range first",
            "range only",
            "repeated lone variable in a matched arc",
            "constant in a matched arc",
            "operators in a matched arc",
            "empty place of a matched arc",
            "match in vain",
            "solve in vain",
            "coefficient 0",
            "coefficient that is no constant",
            "negative value in a binding",
            "a binding met more than once",
            "bindings met out of order",
            "two transitions",
        ],
        NO_VARIABLES,
    );
    io::write_all(1, b"\ncalls by answer\n");
    t.answers("found");
    t.end();
}
