// An expression passed over: where it ends, or its refusal. Rests on head.
ghost use Rattle.std.specs.Prelude.{◌≡◌};
ghost use Rattle.semantics.specs.ReadNet.{read_expression};
ghost use Rattle.expression.specs.Skip.{forget, skipped, Skips, IsPassed};

use crate::head::{Head, MOST_EXPRESSION_WORDS, head_at};
use semantics::refusal::Refusal;
use word::fields::{MOST_WORDS, kind, payload};

// Passes over the expression at a position, which may take `left` words: the position after it and the words left then.
fn pass(words: &[u32], variables: usize, at: usize, left: usize) -> Result<(usize, usize), Refusal>
    ensures { IsPassed words.now variables at left result }
{
    match head_at(words, variables, at, left)? {
        Head::Constant(_) | Head::Variable(_) => Ok((at + 1, left - 1)),
        Head::Binary(_) => {
            let (second, most) = pass(words, variables, at + 1, left - 1)?;
            pass(words, variables, second, most)
        }
        Head::Load => pass(words, variables, at + 1, left - 1),
    }
}

// The same of any expression.
fn skip_any(words: &[u32], variables: usize, at: usize) -> Result<usize, Refusal>
    ensures { (skipped result ≡ forget (read_expression words.now variables at)) × Skips words.now at result }
{
    let (next, _) = pass(words, variables, at, MOST_EXPRESSION_WORDS)?;
    Ok(next)
}

// The position after the expression at a position, its variables being below `variables`. A constant or a lone variable, the common case, is told from
// its word: so short a path goes into the loops that read.
pub fn skip_expression(words: &[u32], variables: usize, at: usize) -> Result<usize, Refusal>
    ensures { (skipped result ≡ forget (read_expression words.now variables at)) × Skips words.now at result }
{
    if words.len() <= at {
        return Err(Refusal::NetEndsEarly(words.len()));
    }
    if MOST_WORDS <= at {
        return Err(Refusal::NetTooLong(MOST_WORDS));
    }
    let w = words[at];
    let rest = payload(w);
    match kind(w) {
        7 => {
            if rest < 16384 {
                Ok(at + 1)
            } else {
                Err(Refusal::BadWord(at))
            }
        }
        8 => {
            if (rest as usize) < variables {
                Ok(at + 1)
            } else {
                Err(Refusal::BadWord(at))
            }
        }
        0..=6 | 9..=15 => skip_any(words, variables, at),
        _ => skip_any(words, variables, at),
    }
}
