// A solve try: the lone unbound variable on one side of an equation takes the value of the other side. That a side fits was settled when the plan
// was accepted, so one look at the left side decides.
ghost use Rattle.std.specs.Prelude.{◌≡◌, ◌≤◌, ◌<◌, ◌+◌, length};
ghost use Rattle.expression.specs.Standing.{HasExpression};
ghost use Rattle.net.specs.Places.{ranges_from};
ghost use Rattle.net.specs.Standing.{HasConjunct};
ghost use Rattle.tries.specs.Partial.{partial_of, bound_by, IsTried};
ghost use Rattle.solving.specs.Solve.{value_for, IsLone, bound_at, solved_at};

use evaluation::evaluate::{evaluate, value_of};
use tries::partial::bind_new;
use word::fields::{kind, payload};

// A variable takes the value of the expression that stands at a position, where it has one in the variable's range.
fn bind_value(
    net: &[u32],
    ranges: usize,
    variables: usize,
    slots: &mut [u32],
    n: usize,
    at: usize,
) -> bool
    requires slots_len { (length slots.old ≡ variables) × (ranges + variables ≤ length net.now) }
    requires has_expression { HasExpression net.now variables at }
    ensures { IsTried variables (bound_by (ranges_from net.now variables ranges) (partial_of variables slots.old) n (value_for net.now variables slots.old at)) slots.old result slots.new }
{
    let Some(z) = evaluate(net, slots, at).value else {
        return false;
    };
    bind_new(net, ranges, variables, slots, n, z)
}

// The variable that stands alone at a position, where a partial binding leaves it unbound.
fn lone_at(net: &[u32], variables: usize, slots: &[u32], at: usize) -> Option<usize>
    requires { (length slots.now ≡ variables) × (at < length net.now) }
    ensures { IsLone net.now variables slots.now at result }
{
    let w = net[at];
    if kind(w) != 8 {
        return None;
    }
    let n = payload(w) as usize;
    if variables <= n || value_of(slots[n]).is_some() {
        return None;
    }
    Some(n)
}

// The variable alone at a position takes a value, where one stands there.
fn bind_lone(
    net: &[u32],
    ranges: usize,
    variables: usize,
    slots: &mut [u32],
    at: usize,
    z: i32,
) -> bool
    requires slots_len { (length slots.old ≡ variables) × (ranges + variables ≤ length net.now) }
    requires at_in_bounds { at < length net.now }
    ensures { IsTried variables (bound_at net.now (ranges_from net.now variables ranges) (partial_of variables slots.old) at z) slots.old result slots.new }
{
    let w = net[at];
    if kind(w) != 8 {
        return false;
    }
    bind_new(net, ranges, variables, slots, payload(w) as usize, z)
}

// The equation at a position solved under a partial binding: left is looked at first.
pub fn solve_at(net: &[u32], ranges: usize, variables: usize, slots: &mut [u32], at: usize) -> bool
    requires slots_len { (length slots.old ≡ variables) × (ranges + variables ≤ length net.now) }
    requires has_conjunct { HasConjunct net.now variables at }
    ensures { IsTried variables (solved_at net.now (ranges_from net.now variables ranges) variables (partial_of variables slots.old) at) slots.old result slots.new }
{
    if let Some(n) = lone_at(net, variables, slots, at + 1) {
        return bind_value(net, ranges, variables, slots, n, at + 2);
    }
    let left = evaluate(net, slots, at + 1);
    let Some(z) = left.value else {
        return false;
    };
    bind_lone(net, ranges, variables, slots, left.next, z)
}
