// The value of an expression under lent binding words, and where it ends. Rests on the crates word and numbers.
ghost use Rattle.std.specs.Prelude.{◌≡◌, length};
ghost use Rattle.semantics.specs.Answer.{option_of};
ghost use Rattle.semantics.specs.ReadNet.{read_expression};
ghost use Rattle.expression.specs.Standing.{HasExpression};
ghost use Rattle.evaluation.specs.Evaluate.{value_of, lent, evaluated, evaluated_from, Stands, StandTwo, HasOperator, IsEvaluated, IsTwo, IsLoaded};

use numbers::number::{apply_load, operate};
use word::fields::{kind, payload, signed};

// The value of a VALUE word; any other word has none.
pub fn value_of(w: u32) -> Option<i32>
    ensures { option_of result ≡ value_of w }
{
    match kind(w) {
        12 => {
            // An `if`, whose ways are those of the caller that this goes into: `then_some` makes both answers and chooses between them.
            if payload(w) < 16384 {
                Some(signed(w))
            } else {
                None
            }
        }
        0..=11 | 13..=15 => None,
        _ => None,
    }
}

// The value of an expression, if it has one, and the position after it.
#[derive(Clone, Copy)]
pub struct Evaluated {
    pub value: Option<i32>,
    pub next: usize,
}

// Evaluates the expression that stands at a position. A constant or a lone variable, the common case, is told from its word, with no call: so short a path
// goes into whatever evaluates.
#[cycle(evaluation)]
#[inline(always)]
fn evaluate_at(words: &[u32], binding: &[u32], at: usize) -> Evaluated
    requires { Stands words.now (length binding.now) at }
    ensures { IsEvaluated words.now binding.now at result }
{
    let w = words[at];
    match kind(w) {
        7 => Evaluated {
            value: Some(signed(w)),
            next: at + 1,
        },
        8 => Evaluated {
            value: value_of(binding[payload(w) as usize]),
            next: at + 1,
        },
        0..=6 | 9..=15 => evaluate_operator(words, binding, at),
        _ => evaluate_operator(words, binding, at),
    }
}

// The same of one that begins with an operator.
#[cycle(evaluation)]
fn evaluate_operator(words: &[u32], binding: &[u32], at: usize) -> Evaluated
    requires { HasOperator words.now (length binding.now) at }
    ensures { IsEvaluated words.now binding.now at result }
{
    let code = payload(words[at]);
    match code {
        0..=3 => evaluate_two(words, binding, code, at + 1),
        4 => evaluate_load(words, binding, at + 1),
        _ => Evaluated {
            value: None,
            next: at,
        },
    }
}

// The operator of a code on the two expressions that stand at a position.
#[cycle(evaluation)]
fn evaluate_two(words: &[u32], binding: &[u32], code: u32, at: usize) -> Evaluated
    requires { StandTwo words.now (length binding.now) at }
    ensures { IsTwo words.now binding.now code at result }
{
    let a = evaluate_at(words, binding, at);
    let b = evaluate_at(words, binding, a.next);
    Evaluated {
        value: operate(code, a.value, b.value),
        next: b.next,
    }
}

// The load at the depth that the expression at a position tells.
#[cycle(evaluation)]
fn evaluate_load(words: &[u32], binding: &[u32], at: usize) -> Evaluated
    requires { Stands words.now (length binding.now) at }
    ensures { IsLoaded words.now binding.now at result }
{
    let a = evaluate_at(words, binding, at);
    Evaluated {
        value: apply_load(a.value),
        next: a.next,
    }
}

// Evaluates the expression that stands at a position. Variable n is the VALUE word n of the binding; it has no value where another word stands there.
pub fn evaluate(words: &[u32], binding: &[u32], at: usize) -> Evaluated
    requires { HasExpression words.now (length binding.now) at }
    ensures { evaluated result ≡ evaluated_from (lent binding.now) (read_expression words.now (length binding.now) at) }
{
    evaluate_at(words, binding, at)
}
