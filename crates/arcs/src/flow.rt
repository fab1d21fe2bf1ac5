// What an arc moves under lent binding words: so many tokens of a place and colour, which are one number, a key: the place above the 56 bits of a
// colour's code.
ghost use Rattle.std.specs.Prelude.{◌≡◌, ◌≤◌, ◌<◌, ◌+◌, ◌^◌, length, IfSome};
ghost use Rattle.semantics.specs.Answer.{option_of};
ghost use Rattle.semantics.specs.ReadNet.{read_expression};
ghost use Rattle.expression.specs.Standing.{HasExpression, HasSeveral};
ghost use Rattle.evaluation.specs.Evaluate.{lent, value_of, valued};
ghost use Rattle.net.specs.Places.{PlacesFit};
ghost use Rattle.net.specs.Standing.{HasArc};
ghost use Rattle.arcs.specs.Flow.{coefficient_of};
ghost use Rattle.arcs.specs.Keys.{Componented, IsComponent, put_digit, IsPacked, Below, moved_by, IsMoved};

use colours::code::digit_of;
use colours::range::digit_in;
use evaluation::evaluate::evaluate;
use word::fields::{kind, payload, value_word, within};

// The tokens that the coefficient at a position tells, and the position after it; none where it has no value or is negative.
fn coefficient_at(net: &[u32], binding: &[u32], at: usize) -> Option<(u32, usize)>
    requires { HasExpression net.now (length binding.now) at }
    ensures { option_of result ≡ coefficient_of (lent binding.now) (read_expression net.now (length binding.now) at) }
{
    let told = evaluate(net, binding, at);
    let z = told.value?;
    if z < 0 {
        return None;
    }
    Some((z as u32, told.next))
}

// A component of a colour that has a value: its digit, if it has no more than 14 bits, and the position after it.
#[derive(Clone, Copy)]
pub struct Component {
    pub digit: Option<u64>,
    pub next: usize,
}

// The component that operators make.
fn computed_at(net: &[u32], binding: &[u32], at: usize) -> Option<Component>
    requires { HasExpression net.now (length binding.now) at }
    ensures { IsComponent net.now binding.now at result }
{
    let told = evaluate(net, binding, at);
    let z = told.value?;
    if !within(-8192, 8191, z) {
        return Some(Component {
            digit: None,
            next: told.next,
        });
    }
    Some(Component {
        digit: Some(digit_of(value_word(z))),
        next: told.next,
    })
}

// The component that a word of the binding is: a VALUE word is its digit, no other word has a value.
fn bound_digit(w: u32, next: usize) -> Option<Component>
    ensures { Componented (valued (value_of w) next) result }
{
    if w / 16384 != 0x3_0000 {
        return None;
    }
    Some(Component {
        digit: Some(digit_of(w)),
        next,
    })
}

// The component that stands at a position. A constant or a lone variable, the common case, is a digit straight from its word.
fn component_at(net: &[u32], binding: &[u32], at: usize) -> Option<Component>
    requires { HasExpression net.now (length binding.now) at }
    ensures { IsComponent net.now binding.now at result }
{
    let w = net[at];
    match kind(w) {
        7 => Some(Component {
            digit: Some(digit_of(w)),
            next: at + 1,
        }),
        8 => bound_digit(binding[payload(w) as usize], at + 1),
        0..=6 | 9..=15 => computed_at(net, binding, at),
        _ => computed_at(net, binding, at),
    }
}

// One component more behind the code of others, held against its RANGE word: none as soon as one is outside its range.
fn put_digit(coded: Option<u64>, range: u32, digit: Option<u64>) -> Option<u64>
    requires { IfSome coded (λ c. c < 2 ^ 42) × IfSome digit (λ d. d < 16384) }
    ensures { result ≡ put_digit coded range digit }
{
    let code = coded?;
    let d = digit?;
    // A way out, as for the Options above: `then_some` makes both answers and chooses between them.
    if !digit_in(range, d) {
        return None;
    }
    Some(code * 16384 + d)
}

// The code of a colour; it is outside its place; or a component has no value.
#[derive(Clone, Copy)]
pub enum Packed {
    Code(u64),
    Outside,
    Nothing,
}

// The colour of the n expressions that stand one after the other, held against the RANGE words from a position on.
fn pack(net: &[u32], binding: &[u32], ranges: usize, n: usize, at: usize) -> Packed
    requires n_bound { (n ≤ 4) × (ranges + n ≤ length net.now) }
    requires has_several { HasSeveral net.now (length binding.now) n at }
    ensures { IsPacked net.now binding.now ranges n at result }
{
    let mut coded = Some(0);
    let mut next = at;
    for i in 0..n {
        let Some(component) = component_at(net, binding, next) else {
            return Packed::Nothing;
        };
        next = component.next;
        // A way of its own, so that a digit from its word, the common component, is not asked about.
        let Some(_) = component.digit else {
            coded = None;
            continue;
        };
        coded = put_digit(coded, net[ranges + i], component.digit);
    }
    match coded {
        Some(code) => Packed::Code(code),
        None => Packed::Outside,
    }
}

// What an arc moves: so many tokens, at least one, of a key; none of any colour; some of a colour that its place cannot have; or it has no flow.
#[derive(Clone, Copy)]
pub enum Moved {
    Tokens(u64, u32),
    Idle,
    Outside,
    Nothing,
}

// So many tokens of a place and a colour.
fn tokens_of(place: usize, amount: u32, colour: Packed) -> Moved
    requires place_bound { place < 64 }
    requires below { Below colour }
    ensures { result ≡ moved_by place amount colour }
{
    match colour {
        Packed::Code(code) => {
            if amount == 0 {
                return Moved::Idle;
            }
            Moved::Tokens(place as u64 * 0x100_0000_0000_0000 + code, amount)
        }
        Packed::Outside => {
            if 1 <= amount {
                return Moved::Outside;
            }
            Moved::Idle
        }
        Packed::Nothing => Moved::Nothing,
    }
}

// What the arc that stands at a position moves, in a net with these positions of places.
pub fn move_at(net: &[u32], places: &[usize], binding: &[u32], at: usize) -> Moved
    requires places_fit { PlacesFit net.now places.now }
    requires has_arc { HasArc net.now places.now (length binding.now) at }
    ensures { IsMoved net.now places.now binding.now at result }
{
    let place = payload(net[at]) as usize;
    let Some((amount, next)) = coefficient_at(net, binding, at + 1) else {
        return Moved::Nothing;
    };
    let from = places[place];
    let width = payload(net[from]) as usize;
    let colour = pack(net, binding, from + 1, width, next);
    tokens_of(place, amount, colour)
}
