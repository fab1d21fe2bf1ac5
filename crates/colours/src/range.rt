// A value held against a RANGE word of the net, as digits, which stand to each other as values do.
ghost use Rattle.std.specs.Prelude.{◌≡◌, ◌<◌};
ghost use Rattle.semantics.specs.Word.{within};
ghost use Rattle.word.specs.Fields.{range_word};
ghost use Rattle.colours.specs.Code.{of_digit};

use crate::code::digit_of;
use word::fields::{value_word, within};

// Whether the value of a digit is in the range of a RANGE word.
pub fn digit_in(range: u32, d: u64) -> bool
    requires { d < 16384 }
    ensures { result ≡ within (range_word range) (of_digit d) }
{
    if d < digit_of(range / 16384) {
        return false;
    }
    d <= digit_of(range)
}

// Whether a value is in the range of a RANGE word. One that has more than 14 bits is in none.
pub fn in_range(range: u32, z: i32) -> bool
    ensures { result ≡ within (range_word range) z }
{
    if !within(-8192, 8191, z) {
        return false;
    }
    digit_in(range, digit_of(value_word(z)))
}
