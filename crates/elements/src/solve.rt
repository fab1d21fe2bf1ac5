// The variable that a solve binds, told from the words of its conjunct.
ghost use Rattle.std.specs.Prelude.{◌≡◌, ◌≤◌, length};
ghost use Rattle.expression.proofs.Laws.{variable_passes};
ghost use Rattle.elements.specs.Binds.{all_bound, solved_at, solve_at};
ghost use Rattle.elements.specs.Bound.{marked, IsBound};

use crate::bind::bind_lone;
use expression::read::skip_expression;
use kinds::take::take;
use word::fields::{kind, payload};

// Whether a word is not a variable, or a bound one.
fn passes(marks: &[bool], w: u32) -> bool
    requires { length marks.now ≡ 8 }
    ensures { result ≡ variable_passes (marked marks.now) w }
{
    if kind(w) != 8 {
        return true;
    }
    let n = payload(w) as usize;
    if 8 <= n {
        return false;
    }
    marks[n]
}

// Whether the words from one position to another have only bound variables.
fn all_bound(words: &[u32], marks: &[bool], from: usize, to: usize) -> bool
    requires marks_len { length marks.now ≡ 8 }
    requires to_in_bounds { to ≤ length words.now }
    ensures { result ≡ all_bound words.now (marked marks.now) from to }
{
    for at in from..to {
        if !passes(marks, words[at]) {
            return false;
        }
    }
    true
}

// Binds the unbound variable alone at a position where the words from one position to another have only bound variables.
fn bind_side(
    words: &[u32],
    variables: usize,
    marks: &mut [bool],
    at: usize,
    from: usize,
    to: usize,
) -> bool
    requires variables_bound { variables ≤ 8 }
    requires marks_len { length marks.old ≡ 8 }
    requires to_in_bounds { to ≤ length words.now }
    ensures { IsBound marks.old (solved_at words.now variables (marked marks.old) at from to) result marks.new }
{
    if all_bound(words, marks, from, to) {
        return bind_lone(words, variables, marks, at);
    }
    false
}

// A solve of the conjunct at a position: an =, one side an unbound variable alone, the other with only bound ones; left looked at first.
pub fn bind_solve(words: &[u32], variables: usize, marks: &mut [bool], at: usize) -> bool
    requires variables_bound { variables ≤ 8 }
    requires marks_len { length marks.old ≡ 8 }
    ensures { IsBound marks.old (solve_at words.now variables (marked marks.old) at) result marks.new }
{
    let Ok(relation) = take(words, at, 6) else {
        return false;
    };
    if relation != 0 {
        return false;
    }
    let Ok(right) = skip_expression(words, variables, at + 1) else {
        return false;
    };
    let Ok(end) = skip_expression(words, variables, right) else {
        return false;
    };
    if bind_side(words, variables, marks, at + 1, right, end) {
        return true;
    }
    bind_side(words, variables, marks, right, at + 1, right)
}
