// Structures passed over: an arc, a conjunct or a word by itself, and several of a kind with the positions at which they begin.
ghost use Rattle.std.specs.Prelude.{◌≡◌, ◌≤◌, ◌+◌, length};
ghost use Rattle.expression.specs.Skip.{forget, skipped};
ghost use Rattle.net.specs.Skim.{starts, skim_range, skim_expression, skim_arc, skim_conjunct, skim_one};
ghost use Rattle.net.specs.Index.{AreStarted};

use expression::read::skip_expression;
use kinds::take::take;
use semantics::refusal::Refusal;

// So many expressions.
fn skip_expressions(words: &[u32], variables: usize, n: usize, at: usize) -> Result<usize, Refusal>
    ensures { skipped result ≡ forget (starts n (skim_expression words.now variables) at) }
{
    let mut next = at;
    for _ in 0..n {
        next = skip_expression(words, variables, next)?;
    }
    Ok(next)
}

// An arc: ARC, a coefficient and as many components as its place has; `widths` has that number for each place.
fn skip_arc(words: &[u32], widths: &[usize], variables: usize, at: usize) -> Result<usize, Refusal>
    ensures { skipped result ≡ skim_arc words.now widths.now variables at }
{
    let place = take(words, at, 5)? as usize;
    if widths.len() <= place {
        return Err(Refusal::BadWord(at));
    }
    let next = skip_expression(words, variables, at + 1)?;
    skip_expressions(words, variables, widths[place], next)
}

// A conjunct: its word and two expressions.
fn skip_conjunct(words: &[u32], variables: usize, at: usize) -> Result<usize, Refusal>
    ensures { skipped result ≡ skim_conjunct words.now variables at }
{
    take(words, at, 6)?;
    let right = skip_expression(words, variables, at + 1)?;
    skip_expression(words, variables, right)
}

// A structure by the code of its first word: an arc, a conjunct, or a word by itself.
fn skip_one(
    words: &[u32],
    widths: &[usize],
    variables: usize,
    k: u32,
    at: usize,
) -> Result<usize, Refusal>
    ensures { skipped result ≡ skim_one words.now widths.now variables k at }
{
    match k {
        5 => skip_arc(words, widths, variables, at),
        6 => skip_conjunct(words, variables, at),
        _ => {
            take(words, at, k)?;
            Ok(at + 1)
        }
    }
}

// n structures of one kind from the end of what stands before them, or its refusal; where each begins is written to a table from a number on.
pub fn skip_several(
    words: &[u32],
    widths: &[usize],
    variables: usize,
    k: u32,
    table: &mut [usize],
    base: usize,
    n: usize,
    from: Result<usize, Refusal>,
) -> Result<usize, Refusal>
    requires { base + n ≤ length table.old }
    ensures { AreStarted n (skim_one words.now widths.now variables k) from table.old base result table.new }
{
    let at = from?;
    let mut next = at;
    for i in 0..n {
        table[base + i] = next;
        next = skip_one(words, widths, variables, k, next)?;
    }
    Ok(next)
}

// So many RANGE words.
pub fn skip_ranges(words: &[u32], n: usize, at: usize) -> Result<usize, Refusal>
    ensures { skipped result ≡ forget (starts n (skim_range words.now) at) }
{
    let mut next = at;
    for _ in 0..n {
        take(words, next, 3)?;
        next += 1;
    }
    Ok(next)
}
