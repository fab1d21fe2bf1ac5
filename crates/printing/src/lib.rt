// The printed menu written to standard output, a part at a time. What is written is not proved: each part is, and proofs/Whole.antt of the crate
// printed shows that the parts in their order are the text and that none is cut.
#![tactic(auto)]

ghost use Rattle.std.specs.Prelude.{◌≡◌, suc, ltb};
ghost use Rattle.printed.specs.Texts.{parts};

use printed::part::whole_part;

// Writes part i for bytes; answers whether another follows.
fn write_part(bytes: &[u8], i: usize) -> bool
    ensures { result ≡ ltb (suc i) (parts bytes.now) }
{
    let mut out = [0u8; 24640];
    let part = whole_part(bytes, i, &mut out);
    let written = part.written;
    io::write_all(1, &out[..written]);
    part.more
}

// Writes the printed menu for bytes.
pub fn write_printed(bytes: &[u8]) {
    let mut i = 0;
    // Whether another part follows is told with the part, so that the number of turns is not known beforehand.
    while write_part(bytes, i) {
        i += 1;
    }
}
