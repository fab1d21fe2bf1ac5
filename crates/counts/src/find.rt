// The count of a colour on a place, found by bisection among that place's entries.
ghost use Rattle.std.specs.Prelude.{◌≡◌, ◌≤◌, ◌<◌, ◌+◌, ◌*◌, ◌/◌, ◌^◌, length};
ghost use Rattle.colours.specs.Code.{coloured};
ghost use Rattle.counts.specs.Counts.{IsFloor, IsSpot};

use colours::code::code_at;

// Of k entries from a position on, each a word and the n values of a colour, the last that does not stand after the colour of a code; the first
// where all do. Each halving compares once; whether the entry is that of the colour is left to a last comparison.
fn floor(words: &[u32], from: usize, k: usize, n: usize, code: u64) -> usize
    requires k_nonzero { 0 < k }
    requires n_in_bounds { from + k * (n + 1) ≤ length words.now }
    requires n_bound { (n ≤ 4) × (code < 16384 ^ n) }
    ensures { IsFloor words.now n from k (coloured n code) result }
{
    let size = n + 1;
    let mut low = 0;
    let mut high = k;
    while 1 < high - low {
        let mid = low + (high - low) / 2;
        if code < code_at(words, from + mid * size + 1, n) {
            high = mid;
        } else {
            low = mid;
        }
    }
    low
}

// How many entries of a size so many words have. A place has one to four components; a division by a known number is quick, and so is a chain of
// tests, where a match would jump through a table.
pub fn entries(words: usize, size: usize) -> usize
    requires { 0 < size }
    ensures { result ≡ words / size }
{
    if size == 2 {
        return words / 2;
    }
    if size == 3 {
        return words / 3;
    }
    if size == 4 {
        return words / 4;
    }
    if size == 5 {
        return words / 5;
    }
    words / size
}

// Where an entry stands or would stand, and its count, 0 where there is none.
#[derive(Clone, Copy)]
pub struct Spot {
    pub at: usize,
    pub count: u32,
}

// The entry of a place and the colour of a code, of as many components as the place has; `begins` has where the entries of each place begin.
pub fn find(words: &[u32], begins: &[usize], place: usize, n: usize, code: u64) -> Spot
    requires place_in_bounds { place + 1 < length begins.now }
    requires n_bound { (n ≤ 4) × (code < 16384 ^ n) }
    ensures { IsSpot words.now begins.now place (coloured n code) result }
{
    let from = begins[place];
    let to = begins[place + 1];
    if to < from {
        return Spot { at: from, count: 0 };
    }
    if words.len() < to {
        return Spot { at: from, count: 0 };
    }
    let size = n + 1;
    let k = entries(to - from, size);
    if k == 0 {
        return Spot { at: from, count: 0 };
    }
    let at = from + floor(words, from, k, n, code) * size;
    let here = code_at(words, at + 1, n);
    if here == code {
        return Spot {
            at: at,
            count: words[at] % 16384,
        };
    }
    if here < code {
        return Spot {
            at: at + size,
            count: 0,
        };
    }
    Spot { at: at, count: 0 }
}
