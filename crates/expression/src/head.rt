// The first word of an expression: what it is. Rests on the crate word.
ghost use Rattle.std.specs.Prelude.{◌<◌};
ghost use Rattle.expression.specs.Head.{IsWord, IsHead};

use semantics::refusal::Refusal;
use word::fields::{MOST_WORDS, kind, payload, signed};

// An expression has at most this many.
pub const MOST_EXPRESSION_WORDS: usize = 15;

// What a word is as the first of an expression.
#[derive(Clone, Copy, Debug, PartialEq, Eq)]
pub enum Head {
    Constant(i32),
    Variable(usize),
    // by the operator's code
    Binary(u32),
    Load,
}

// The word w as a head.
fn head_of(w: u32, variables: usize, at: usize) -> Result<Head, Refusal>
    ensures { IsWord w variables at result }
{
    let rest = payload(w);
    match kind(w) {
        7 => {
            if rest < 16384 {
                Ok(Head::Constant(signed(w)))
            } else {
                Err(Refusal::BadWord(at))
            }
        }
        8 => {
            let n = rest as usize;
            if n < variables {
                Ok(Head::Variable(n))
            } else {
                Err(Refusal::BadWord(at))
            }
        }
        9 => match rest {
            0..=3 => Ok(Head::Binary(rest)),
            4 => Ok(Head::Load),
            _ => Err(Refusal::BadWord(at)),
        },
        0..=6 | 10..=15 => Err(Refusal::BadWord(at)),
        _ => Err(Refusal::BadWord(at)),
    }
}

// The head at a position of an expression that may take `left` words more.
pub fn head_at(words: &[u32], variables: usize, at: usize, left: usize) -> Result<Head, Refusal>
    ensures { IsHead words.now variables at left result }
{
    if words.len() <= at {
        return Err(Refusal::NetEndsEarly(words.len()));
    }
    if MOST_WORDS <= at {
        return Err(Refusal::NetTooLong(MOST_WORDS));
    }
    if left == 0 {
        return Err(Refusal::BadWord(at));
    }
    head_of(words[at], variables, at)
}
