// The lines of bindings, from the words of a menu.
ghost use Rattle.std.specs.Prelude.{◌*◌, ◌≤◌, length};
ghost use Rattle.text.specs.Put.{Put};
ghost use Rattle.offers.specs.Offers.{rows_text};

use text_lines::line::put_row;

// A line for each of n rows of a width.
pub fn put_rows(out: &mut [u8], at: usize, words: &[u32], width: usize, n: usize) -> usize
    requires { n * width ≤ length words.now }
    ensures { Put out.old at (rows_text width n words.now) out.new result }
{
    let mut next = at;
    for i in 0..n {
        let from = i * width;
        next = put_row(out, next, &words[from..from + width]);
    }
    next
}
