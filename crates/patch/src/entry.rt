// The words of an entry, written from its place, the code of its colour and its count.
ghost use Rattle.std.specs.Prelude.{◌≡◌, map, ◌≤◌, ◌<◌, ◌+◌, length};
ghost use Rattle.semantics.specs.Word.{value_word};
ghost use Rattle.semantics.specs.Marking.{entry_words};
ghost use Rattle.colours.specs.Code.{of_digit, coloured};
ghost use Rattle.patch.specs.Patch.{written};

use word::fields::token_word;

// The VALUE word of a digit.
fn digit_word(d: u64) -> u32
    requires { d < 16384 }
    ensures { result ≡ value_word (of_digit d) }
{
    0xC000_0000 + ((d + 8192) % 16384) as u32
}

// Writes the VALUE words of the colour of a code, of n components, the last one first.
fn write_values(code: u64, n: usize, next: &mut [u32], at: usize)
    requires { at + n ≤ length next.old }
    ensures { next.new ≡ written next.old at (map value_word (coloured n code)) }
{
    let mut rest = code;
    for j in (0..n).rev() {
        next[at + j] = digit_word(rest % 16384);
        rest /= 16384;
    }
}

// Writes an entry, none for the count 0; tells where it ends.
pub fn write_entry(
    place: usize,
    n: usize,
    code: u64,
    count: u32,
    next: &mut [u32],
    at: usize,
) -> usize
    requires place_bound { (place < 256) × (count < 16384) }
    requires count_in_bounds { at + length (entry_words place (coloured n code) count) ≤ length next.old }
    ensures { (next.new ≡ written next.old at (entry_words place (coloured n code) count)) × (result ≡ at + length (entry_words place (coloured n code) count)) }
{
    if count == 0 {
        return at;
    }
    next[at] = token_word(place as u32, count);
    write_values(code, n, next, at + 1);
    at + 1 + n
}
