// Expressions in words: operators with their operands in brackets.
ghost use Rattle.std.specs.Prelude.{◌≤◌, ◌+◌, length, IfOk};

use std::fmt;
use word::fields::{kind, signed};

// The name of an operator.
pub fn operator_name(code: u32) -> &'static str {
    match code {
        0 => "add",
        1 => "subtract",
        2 => "multiply",
        3 => "remainder",
        4 => "load",
        _ => "operator",
    }
}

// The expression that some words begin with; answers how many of the words it has. Three dots stand where the words do not go on with one.
fn spell<W: fmt::Write>(f: &mut fmt::Formatter<W>, words: &[u32]) -> Result<usize, fmt::Error>
    ensures { IfOk result (λ n. n ≤ length words.now) }
{
    let Some((&w, rest)) = words.split_first() else {
        write!(f, "...")?;
        return Ok(0);
    };
    let mut n = 1;
    match kind(w) {
        7 => write!(f, "{}", signed(w))?,
        8 => write!(f, "variable {}", w % 8)?,
        9 => {
            write!(f, "{}(", operator_name(w % 8))?;
            n += spell(f, rest)?;
            if w % 8 != 4 {
                write!(f, ", ")?;
                n += spell(f, &words[n..])?;
            }
            write!(f, ")")?;
        }
        _ => write!(f, "...")?,
    }
    Ok(n)
}

// The expression that some words begin with, of which it has at most 15; answers the words behind it.
pub fn put_expression<'a, W: fmt::Write>(
    f: &mut fmt::Formatter<W>,
    words: &'a [u32],
) -> Result<&'a [u32], fmt::Error>
    ensures no_more { IfOk result (λ rest. length rest.now ≤ length words.now) }
    ensures at_most_15 { IfOk result (λ rest. length words.now ≤ length rest.now + 15) }
{
    let most = words.len().min(15);
    let n = spell(f, &words[..most])?;
    Ok(&words[n..])
}
