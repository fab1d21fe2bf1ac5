// Plans: the variables that an element binds, and where a plan is at fault.
ghost use Rattle.std.specs.Prelude.{◌≡◌, false, cond, ◌≤◌, ◌+◌, length};
ghost use Rattle.std.proofs.Math.Option.{none, some};
ghost use Rattle.semantics.specs.Plan.{every_below};
ghost use Rattle.semantics.specs.Answer.{option_of};
ghost use Rattle.plans.specs.Fitness.{binds_at, fault_from};
ghost use Rattle.plans.specs.Fitness.{plan_parts};
ghost use Rattle.plans.specs.Plan.{IsReviewed, IsBase, AreReviewed};
ghost use Rattle.elements.specs.Bound.{marked, IsBound, sorted};

use elements::bind::{bind_match, bind_variable};
use elements::element::{Element, Sort, element_of};
use elements::solve::bind_solve;
use kinds::take::take;
use net::index::read_parts;
use semantics::refusal::Refusal;

// Binds the variables that an element of a transition binds, whose input arcs and conjuncts begin at these positions; whether there is one.
fn newly_bound(
    words: &[u32],
    widths: &[usize],
    variables: usize,
    inputs: &[usize],
    conjuncts: &[usize],
    marks: &mut [bool],
    e: Element,
) -> bool
    requires variables_bound { variables ≤ 8 }
    requires marks_len { length marks.old ≡ 8 }
    ensures { IsBound marks.old (binds_at words.now widths.now (plan_parts variables inputs.now conjuncts.now) (marked marks.old) (sorted e.sort)) result marks.new }
{
    let sort = e.sort;
    match sort {
        Sort::Match(k) => {
            if inputs.len() <= k {
                return false;
            }
            bind_match(words, widths, variables, marks, inputs[k])
        }
        Sort::Solve(k) => {
            if conjuncts.len() <= k {
                return false;
            }
            bind_solve(words, variables, marks, conjuncts[k])
        }
        Sort::Range(n) => bind_variable(variables, marks, n),
    }
}

// A variable that is not bound is a fault at the transition.
fn unbound(variables: usize, marks: &[bool], at: usize) -> Option<usize>
    requires { variables ≤ length marks.now }
    ensures { option_of result ≡ cond (every_below variables (marked marks.now)) none (some at) }
{
    for n in 0..variables {
        if !marks[n] {
            return Some(at);
        }
    }
    None
}

// The fault of a plan whose elements begin at these positions, as do the transition's input arcs and conjuncts; the transition is at `at`.
fn plan_fault(
    words: &[u32],
    widths: &[usize],
    variables: usize,
    inputs: &[usize],
    conjuncts: &[usize],
    elements: &[usize],
    at: usize,
) -> Option<usize>
    requires { variables ≤ 8 }
    ensures { option_of result ≡ fault_from words.now widths.now (plan_parts variables inputs.now conjuncts.now) at (λ k. false) elements.now }
{
    let mut marks = [false; 8];
    for p in elements {
        let Ok(w) = take(words, *p, 10) else {
            return Some(*p);
        };
        let e = element_of(w);
        if !newly_bound(words, widths, variables, inputs, conjuncts, &mut marks, e) {
            return Some(*p);
        }
    }
    unbound(variables, &marks, at)
}

// What was read of transitions: the position after them, and the first fault of their plans.
#[derive(Clone, Copy)]
pub struct Reviewed {
    pub end: usize,
    pub fault: Option<usize>,
}

// The transition at a position, with the fault of its plan; where its parts begin is written to 32 numbers of a table from one on.
fn read_plan(
    words: &[u32],
    widths: &[usize],
    table: &mut [usize],
    base: usize,
    at: usize,
) -> Result<Reviewed, Refusal>
    requires { base + 32 ≤ length table.old }
    ensures { IsReviewed words.now widths.now at table.old base result table.new }
{
    let (t, end) = read_parts(words, widths, table, base, at)?;
    let own = &table[base..base + 32];
    let ins = &own[..t.inputs];
    let guard = &own[16..16 + t.conjuncts];
    let plan = &own[24..24 + t.elements];
    let fault = plan_fault(words, widths, t.variables, ins, guard, plan, at);
    Ok(Reviewed { end, fault })
}

// Where in a table the parts of the i-th transition are kept: those from `first` on one after the other, 32 numbers each, as many as there is room for
// before `last`; all others there.
fn base_of(i: usize, first: usize, last: usize) -> usize
    ensures { IsBase i first last result }
{
    if i < first {
        return last;
    }
    let k = i - first;
    if last / 32 < k {
        return last;
    }
    k * 32
}

// n transitions, with the first fault of their plans; where each begins is written to the front of `begins`, and where the parts of those from `first` on
// begin to a table, 32 numbers for each. The last 32 numbers of the table serve all others.
pub fn read_plans(
    words: &[u32],
    widths: &[usize],
    begins: &mut [usize],
    n: usize,
    first: usize,
    table: &mut [usize],
    at: usize,
) -> Result<Reviewed, Refusal>
    requires n_in_bounds { n ≤ length begins.old }
    requires in_bounds { 32 ≤ length table.old }
    ensures { AreReviewed words.now widths.now n at begins.new first table.new result }
{
    let last = table.len() - 32;
    let mut fault = None;
    let mut next = at;
    for i in 0..n {
        begins[i] = next;
        let t = read_plan(words, widths, table, base_of(i, first, last), next)?;
        fault = fault.or(t.fault);
        next = t.end;
    }
    Ok(Reviewed { end: next, fault })
}
