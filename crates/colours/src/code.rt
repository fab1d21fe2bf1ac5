// Colours as numbers: a digit of 14 bits for each component, the first one highest, so that two colours of a place are compared at once.
ghost use Rattle.std.specs.Prelude.{◌≡◌, ◌≤◌, ◌<◌, ◌+◌, ◌%◌, ◌^◌, length};
ghost use Rattle.semantics.specs.Word.{signed};
ghost use Rattle.colours.specs.Code.{of_digit, IsCode, IsBehind};
ghost use Rattle.colours.specs.Values.{values_at};

// The digit of a VALUE word.
pub fn digit_of(w: u32) -> u64
    ensures { (of_digit result ≡ signed (w % 16384)) × (result < 16384) }
{
    ((w % 16384 + 8192) % 16384) as u64
}

// A code with the digit of one VALUE word behind it.
fn with_digit(code: u64, w: u32) -> u64
    requires { code < 2 ^ 42 }
    ensures { IsBehind code w result }
{
    code * 16384 + digit_of(w)
}

// The code of n VALUE words. There are at most four, put together without a loop, since bisection asks for little else.
pub fn code_at(words: &[u32], at: usize, n: usize) -> u64
    requires n_bound { n ≤ 4 }
    requires n_in_bounds { at + n ≤ length words.now }
    ensures { IsCode n (values_at words.now n at) result }
{
    if n == 0 {
        return 0;
    }
    let one = with_digit(0, words[at]);
    if n == 1 {
        return one;
    }
    let two = with_digit(one, words[at + 1]);
    if n == 2 {
        return two;
    }
    let three = with_digit(two, words[at + 2]);
    if n == 3 {
        return three;
    }
    with_digit(three, words[at + 3])
}
