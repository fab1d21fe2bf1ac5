// The order of two entries of a marking, by their colours.
ghost use Rattle.std.specs.Prelude.{◌≡◌, ◌≤◌, ◌+◌, length};
ghost use Rattle.semantics.specs.Order.{before};
ghost use Rattle.colours.specs.Values.{values_at};

use numbers::number::{equal, less};
use word::fields::signed;

// Whether the n VALUE words at one position stand before those at another.
pub fn values_before(words: &[u32], a: usize, b: usize, n: usize) -> bool
    requires n_in_bounds { a + n ≤ length words.now }
    requires n_in_bounds_2 { b + n ≤ length words.now }
    ensures { result ≡ before (values_at words.now n a) (values_at words.now n b) }
{
    for i in 0..n {
        let x = signed(words[a + i]);
        let y = signed(words[b + i]);
        // The first question settles nearly every pair of a marking; `cmp` would make an answer before one is asked.
        if less(x, y) {
            return true;
        }
        if !equal(x, y) {
            return false;
        }
    }
    false
}
