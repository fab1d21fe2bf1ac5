// An arrival at an element of a plan: how many tries it makes, and each of them.
ghost use Rattle.std.specs.Prelude.{◌≡◌, ◌≤◌, ◌<◌, ◌+◌, length, get_or};
ghost use Rattle.std.proofs.Math.Option.{none};
ghost use Rattle.net.specs.Places.{PlacesFit};
ghost use Rattle.tries.specs.Partial.{partial_of, IsTried, IsSaved};
ghost use Rattle.arrivals.specs.Step.{IsParts, Blank, Noted, IsTarget, Aims, IsMatch, IsArrival, Safe, Ready, tries_by};

use counts::find::entries;
use elements::element::{Element, Sort};
use expression::read::skip_expression;
use matches::colour::match_colour;
use matches::known::{differs, known_parts};
use solving::solve::solve_at;
use tries::range::{count_values, take_value};
use word::fields::payload;

// A search step: the element that was arrived at, its number of tries, and what they need: for a match where the entries of its place begin, the
// components of a colour there; for a solve where its conjunct stands. The first words of the arc's components and the values that are known of them
// stand in words that the search lends.
#[derive(Clone, Copy)]
pub struct Step {
    pub element: Element,
    pub count: usize,
    pub from: usize,
    pub width: usize,
}

// An element without tries.
fn no_tries(e: Element) -> Step
    ensures { (result.element ≡ e) × (result.count ≡ 0) × (result.from ≡ 0) × (result.width ≡ 0) }
{
    Step {
        element: e,
        count: 0,
        from: 0,
        width: 0,
    }
}

// The first words of so many expressions, one after the other.
fn parts_at(net: &[u32], variables: usize, at: usize, n: usize, parts: &mut [u32; 4])
    requires n_bound { n ≤ 4 }
    requires parts_len { length parts.old ≡ 4 }
    ensures { IsParts net.now variables at n parts.new }
{
    let mut next = at;
    for i in 0..n {
        let Ok(p) = skip_expression(net, variables, next) else {
            return;
        };
        parts[i] = net[next];
        next = p;
    }
}

// A match of the arc at a position: a try for each entry of its place. Its coefficient is one word, so its components stand behind that.
fn arrive_match(
    net: &[u32],
    places: &[usize],
    variables: usize,
    marking: &[u32],
    begins: &[usize],
    e: Element,
    slots: &[u32],
    at: usize,
    parts: &mut [u32; 4],
    known: &mut [u32; 4],
) -> Step
    requires places_fit { PlacesFit net.now places.now }
    requires begins_len { length begins.now ≡ 65 }
    requires variables_in_bounds { variables ≤ length slots.now }
    requires target { IsTarget net.now places.now variables marking.now begins.now at }
    requires blank { Blank parts.old known.old }
    ensures { IsMatch net.now places.now variables marking.now begins.now e at parts.new result × Noted variables slots.now parts.new known.new }
{
    let place = payload(net[at]) as usize;
    let from = begins[place];
    let to = begins[place + 1];
    let width = payload(net[places[place]]) as usize;
    parts_at(net, variables, at + 2, width, parts);
    known_parts(variables, slots, width, parts, known);
    let count = entries(to - from, width + 1);
    Step {
        element: e,
        count,
        from,
        width,
    }
}

// An arrival at an element of the transition at a position, whose input arcs and conjuncts stand at these positions, with a partial binding.
pub fn arrive(
    net: &[u32],
    places: &[usize],
    position: usize,
    variables: usize,
    inputs: &[usize],
    conjuncts: &[usize],
    marking: &[u32],
    begins: &[usize],
    e: Element,
    slots: &[u32],
    parts: &mut [u32; 4],
    known: &mut [u32; 4],
) -> Step
    requires places_fit { PlacesFit net.now places.now }
    requires begins_len { length begins.now ≡ 65 }
    requires variables_in_bounds { (variables ≤ length slots.now) × (position + 1 + variables ≤ length net.now) }
    requires aims { Aims net.now places.now variables inputs.now marking.now begins.now e }
    requires blank { Blank parts.old known.old }
    ensures { IsArrival net.now places.now position variables inputs.now conjuncts.now marking.now begins.now e slots.now parts.new known.new result }
{
    match e.sort {
        Sort::Match(k) => {
            if inputs.len() <= k {
                return no_tries(e);
            }
            arrive_match(
                net, places, variables, marking, begins, e, slots, inputs[k], parts, known,
            )
        }
        Sort::Solve(j) => {
            if conjuncts.len() <= j {
                return no_tries(e);
            }
            Step {
                element: e,
                count: 1,
                from: conjuncts[j],
                width: 0,
            }
        }
        Sort::Range(n) => {
            if variables <= n {
                return no_tries(e);
            }
            Step {
                element: e,
                count: count_values(net[position + 1 + n]),
                from: 0,
                width: 0,
            }
        }
    }
}

// The i-th try of a step from a partial binding: whether it goes on, and then the slots hold what it goes on with. Where a colour differs from what is
// known, the slots are not even looked at.
pub fn try_at(
    net: &[u32],
    ranges: usize,
    variables: usize,
    marking: &[u32],
    s: Step,
    parts: &[u32; 4],
    known: &[u32; 4],
    slots: &mut [u32],
    saved: &[u32; 8],
    i: usize,
) -> bool
    requires slots_len { (length slots.old ≡ variables) × (ranges + variables ≤ length net.now) }
    requires saved { IsSaved slots.old saved.now }
    requires safe { Safe marking.now variables s }
    requires ready { Ready net.now variables s }
    requires noted { Noted variables slots.old parts.now known.now }
    requires i_lt_count { i < s.count }
    ensures { IsTried variables (get_or (tries_by net.now ranges variables marking.now s parts.now (partial_of variables slots.old)) i none) slots.old result slots.new }
{
    match s.element.sort {
        Sort::Match(_) => {
            let width = s.width;
            let at = s.from + i * (width + 1) + 1;
            if differs(marking, at, width, known) {
                return false;
            }
            match_colour(
                net, ranges, variables, marking, at, width, parts, slots, saved,
            )
        }
        Sort::Solve(_) => solve_at(net, ranges, variables, slots, s.from),
        Sort::Range(n) => take_value(net, ranges, variables, slots, n, i),
    }
}
