// One word of a structure: its kind, and the limits that hold of a word by itself.
ghost use Rattle.std.specs.Prelude.{◌≡◌, ◌%◌};
ghost use Rattle.semantics.specs.Word.{between};
ghost use Rattle.semantics.specs.ReadNet.{net_word, transition_word};
ghost use Rattle.kinds.specs.Taken.{fits_kind, range_word, IsTaken};

use semantics::refusal::Refusal;
use word::fields::{MOST_WORDS, kind, payload, signed};

fn in_limits(low: u32, high: u32, n: u32) -> bool
    ensures { result ≡ between low high n }
{
    low <= n && n <= high
}

// The 28 bits of a NET word.
fn fits_net(p: u32) -> bool
    ensures { result ≡ net_word p }
{
    if 65536 <= p {
        return false;
    }
    if !in_limits(1, 64, p / 256 % 256) {
        return false;
    }
    in_limits(1, 64, p % 256)
}

// The 28 bits of a RANGE word.
fn fits_range(p: u32) -> bool
    ensures { result ≡ range_word p }
{
    signed(p / 16384) <= signed(p)
}

// The 28 bits of a TRANSITION word: five numbers of at most 8.
fn fits_transition(p: u32) -> bool
    ensures { result ≡ transition_word p }
{
    if 1048576 <= p {
        return false;
    }
    if 8 < p % 16 {
        return false;
    }
    if 8 < p / 16 % 16 {
        return false;
    }
    if 8 < p / 256 % 16 {
        return false;
    }
    if 8 < p / 4096 % 16 {
        return false;
    }
    p / 65536 % 16 <= 8
}

// The 28 bits of a word of the kind k, as far as they can be judged by themselves.
pub fn fits_kind(k: u32, p: u32) -> bool
    ensures { result ≡ fits_kind k p }
{
    match k {
        1 => fits_net(p),
        2 => in_limits(1, 4, p),
        3 => fits_range(p),
        4 => fits_transition(p),
        6 => p < 4,
        10 => p < 1024 && p / 256 % 4 <= 2,
        0 | 5 | 7..=9 | 11..=15 => true,
        _ => true,
    }
}

// The 28 bits of the word of the kind k at a position.
pub fn take(words: &[u32], at: usize, k: u32) -> Result<u32, Refusal>
    ensures { IsTaken words.now at k result }
{
    if words.len() <= at {
        return Err(Refusal::NetEndsEarly(words.len()));
    }
    if MOST_WORDS <= at {
        return Err(Refusal::NetTooLong(MOST_WORDS));
    }
    let w = words[at];
    if kind(w) != k {
        return Err(Refusal::BadWord(at));
    }
    let p = payload(w);
    if fits_kind(k, p) {
        Ok(p)
    } else {
        Err(Refusal::BadWord(at))
    }
}
