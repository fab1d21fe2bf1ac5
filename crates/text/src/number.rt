// Numbers and values in decimal.
ghost use Rattle.std.specs.Prelude.{◌%◌};
ghost use Rattle.semantics.specs.Word.{signed};
ghost use Rattle.semantics.specs.Print.{decimal, signed_decimal};
ghost use Rattle.text.specs.Put.{Put, Digits};

use crate::put::put_byte;

// The digits of a number, those before the last one first.
fn put_digits(out: &mut [u8], at: usize, n: usize) -> usize
    ensures { Digits out.old at n out.new result }
{
    let last = (48 + n % 10) as u8;
    if n < 10 {
        return put_byte(out, at, last);
    }
    let next = put_digits(out, at, n / 10);
    put_byte(out, next, last)
}

// A number.
pub fn put_decimal(out: &mut [u8], at: usize, n: usize) -> usize
    ensures { Put out.old at (decimal n) out.new result }
{
    put_digits(out, at, n)
}

// The value that the low fourteen bits of a word say.
pub fn put_value(out: &mut [u8], at: usize, w: u32) -> usize
    ensures { Put out.old at (signed_decimal (signed (w % 16384))) out.new result }
{
    let u = (w % 16384) as usize;
    if u < 8192 {
        return put_decimal(out, at, u);
    }
    let next = put_byte(out, at, b'-');
    put_decimal(out, next, 16384 - u)
}
