// The variables that a match binds, told from the words of its arc. A variable is bound by a mark, which is set in place.
ghost use Rattle.std.specs.Prelude.{◌≤◌, length};
ghost use Rattle.elements.specs.Binds.{unbound_of, lone_at, lone_from, match_at};
ghost use Rattle.elements.specs.Bound.{marked, IsBound};

use expression::read::skip_expression;
use kinds::take::take;

// Binds a variable that is below `variables` and not bound; whether it was bound just now.
pub fn bind_variable(variables: usize, marks: &mut [bool], n: usize) -> bool
    requires { variables ≤ length marks.old }
    ensures { IsBound marks.old (unbound_of variables (marked marks.old) n) result marks.new }
{
    if variables <= n {
        return false;
    }
    if marks[n] {
        return false;
    }
    marks[n] = true;
    true
}

// Binds the variable below `variables` that stands alone at a position, if it is not bound.
pub fn bind_lone(words: &[u32], variables: usize, marks: &mut [bool], at: usize) -> bool
    requires { variables ≤ length marks.old }
    ensures { IsBound marks.old (lone_at words.now variables (marked marks.old) at) result marks.new }
{
    let Ok(n) = take(words, at, 8) else {
        return false;
    };
    bind_variable(variables, marks, n as usize)
}

// Binds those of n expressions, one after the other; whether one was bound.
fn bind_each(words: &[u32], variables: usize, marks: &mut [bool], n: usize, at: usize) -> bool
    requires { variables ≤ length marks.old }
    ensures { IsBound marks.old (lone_from words.now variables (marked marks.old) n at) result marks.new }
{
    let mut some = false;
    let mut next = at;
    for _ in 0..n {
        some |= bind_lone(words, variables, marks, next);
        let Ok(after) = skip_expression(words, variables, next) else {
            return some;
        };
        next = after;
    }
    some
}

// A match of the arc at a position: its coefficient is one CONSTANT of at least 1.
pub fn bind_match(
    words: &[u32],
    widths: &[usize],
    variables: usize,
    marks: &mut [bool],
    at: usize,
) -> bool
    requires { variables ≤ length marks.old }
    ensures { IsBound marks.old (match_at words.now widths.now variables (marked marks.old) at) result marks.new }
{
    let Ok(q) = take(words, at, 5) else {
        return false;
    };
    let place = q as usize;
    if widths.len() <= place {
        return false;
    }
    let Ok(z) = take(words, at + 1, 7) else {
        return false;
    };
    if z < 1 || 8191 < z {
        return false;
    }
    bind_each(words, variables, marks, widths[place], at + 2)
}
