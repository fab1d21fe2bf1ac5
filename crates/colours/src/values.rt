// VALUE words held against RANGE words of the net: the components of an entry, and the values of a binding.
ghost use Rattle.std.specs.Prelude.{◌≡◌, ◌≤◌, ◌+◌, length};
ghost use Rattle.semantics.specs.Reading.{values_in};
ghost use Rattle.expression.specs.Skip.{forget, skipped};
ghost use Rattle.word.specs.Fields.{range_word};
ghost use Rattle.net.specs.Places.{ranges_from};
ghost use Rattle.semantics.proofs.Spans.{value_in};

use crate::code::digit_of;
use crate::range::digit_in;
use kinds::take::take;
use semantics::refusal::Refusal;

// Whether the 28 bits of a VALUE word are a value in the range of a RANGE word.
fn fits_range(p: u32, range: u32) -> bool
    ensures { result ≡ value_in (range_word range) p }
{
    if 16384 <= p {
        return false;
    }
    digit_in(range, digit_of(p))
}

// The position after n VALUE words, each in the range of one of the n RANGE words of the net from a position on.
pub fn read_values(
    words: &[u32],
    at: usize,
    net: &[u32],
    from: usize,
    n: usize,
) -> Result<usize, Refusal>
    requires { from + n ≤ length net.now }
    ensures { skipped result ≡ forget (values_in words.now (ranges_from net.now n from) at) }
{
    for i in 0..n {
        let p = take(words, at + i, 12)?;
        if !fits_range(p, net[from + i]) {
            return Err(Refusal::BadWord(at + i));
        }
    }
    Ok(at + n)
}
