// Lines: fields with one space between them, and a line feed.
ghost use Rattle.std.specs.Prelude.{◌∷◌, [], map, ◌%◌};
ghost use Rattle.semantics.specs.Word.{signed};
ghost use Rattle.semantics.specs.Print.{decimal, refused_text, after_first, line, bad_input, fields};
ghost use Rattle.text.specs.Put.{Put};
ghost use Rattle.text_lines.specs.Row.{row_text};

use text::number::{put_decimal, put_value};
use text::put::{put_byte, put_bytes};

// A space and a number.
fn put_next(out: &mut [u8], at: usize, n: usize) -> usize
    ensures { Put out.old at (32 ∷ decimal n) out.new result }
{
    let next = put_byte(out, at, b' ');
    put_decimal(out, next, n)
}

// A line of three numbers.
pub fn put_numbers(out: &mut [u8], at: usize, a: usize, b: usize, c: usize) -> usize
    ensures { Put out.old at (line (decimal a ∷ decimal b ∷ decimal c ∷ [])) out.new result }
{
    let first = put_decimal(out, at, a);
    let second = put_next(out, first, b);
    let third = put_next(out, second, c);
    put_byte(out, third, b'\n')
}

// The line of an input that is refused with a number at a position.
pub fn put_bad_input(out: &mut [u8], at: usize, number: usize, position: usize) -> usize
    ensures { Put out.old at (bad_input number position) out.new result }
{
    let first = put_bytes(out, at, b"refused");
    let second = put_next(out, first, number);
    let third = put_next(out, second, position);
    put_byte(out, third, b'\n')
}

// The line of a transition whose menu is refused with a number.
pub fn put_withheld(out: &mut [u8], at: usize, transition: usize, number: usize) -> usize
    ensures { Put out.old at (line (decimal transition ∷ refused_text ∷ decimal number ∷ [])) out.new result }
{
    let first = put_decimal(out, at, transition);
    let second = put_bytes(out, first, b" refused");
    let third = put_next(out, second, number);
    put_byte(out, third, b'\n')
}

// The values of VALUE words behind the first one, and the line's end.
fn put_later(out: &mut [u8], at: usize, later: &[u32]) -> usize
    ensures { Put out.old at (after_first (fields (map (λ w. signed (w % 16384)) later.now))) out.new result }
{
    let mut next = at;
    for w in later {
        next = put_byte(out, next, b' ');
        next = put_value(out, next, *w);
    }
    put_byte(out, next, b'\n')
}

// The line of a binding, from its VALUE words.
pub fn put_row(out: &mut [u8], at: usize, row: &[u32]) -> usize
    ensures { Put out.old at (row_text row.now) out.new result }
{
    let [first, later @ ..] = row else {
        return put_byte(out, at, b'\n');
    };
    let next = put_value(out, at, *first);
    put_later(out, next, later)
}
