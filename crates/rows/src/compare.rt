// How rows of VALUE words stand to each other: by rising values, the first that differ decide.
ghost use Rattle.std.specs.Prelude.{◌+◌, ◌≤◌, length, take, drop};
ghost use Rattle.rows.specs.Rows.{values_of_words, Stands};

use numbers::number::less;
use std::cmp::Ordering;
use word::fields::signed;

// How the words of a buffer from a position on stand to a row.
pub fn compare_row(buffer: &[u32], at: usize, row: &[u32]) -> Ordering
    requires { at + length row.now ≤ length buffer.now }
    ensures { Stands result (values_of_words (take (length row.now) (drop at buffer.now))) (values_of_words row.now) }
{
    for j in 0..row.len() {
        let x = signed(buffer[at + j]);
        let y = signed(row[j]);
        // Asked one by one: `cmp` would make an answer before one is asked.
        if less(x, y) {
            return Ordering::Less;
        }
        if less(y, x) {
            return Ordering::Greater;
        }
    }
    Ordering::Equal
}
