// An element of a plan: a match of an input arc, a solve of a conjunct or a range of a variable, with its number.
ghost use Rattle.std.specs.Prelude.{◌≡◌};
ghost use Rattle.semantics.specs.Word.{bits};
ghost use Rattle.semantics.specs.ReadNet.{sort_of};
ghost use Rattle.elements.specs.Bound.{sorted};

#[derive(Clone, Copy)]
pub enum Sort {
    Match(usize),
    Solve(usize),
    Range(usize),
}

#[derive(Clone, Copy)]
pub struct Element {
    pub sort: Sort,
}

// The element of an ELEMENT word's 28 bits.
pub fn element_of(p: u32) -> Element
    ensures { sorted result.sort ≡ sort_of (bits 8 9 p) (bits 0 7 p) }
{
    let n = (p % 256) as usize;
    match p / 256 % 4 {
        0 => Element {
            sort: Sort::Match(n),
        },
        1 => Element {
            sort: Sort::Solve(n),
        },
        _ => Element {
            sort: Sort::Range(n),
        },
    }
}
