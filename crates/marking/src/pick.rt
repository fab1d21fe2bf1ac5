// Picks: refusals 6 and 9 of a list of them.
ghost use Rattle.std.specs.Prelude.{◌≡◌, ◌&&◌, leb};
ghost use Rattle.semantics.specs.Marking.{is_pick, pick_transition, first_unknown, first_malformed};
ghost use Rattle.semantics.specs.Answer.{option_of};

use word::fields::{kind, payload};

// Whether a word is a PICK without stray bits.
pub fn is_pick(w: u32) -> bool
    ensures { result ≡ is_pick w }
{
    kind(w) == 13 && payload(w) < 4194304
}

// Whether a word is a pick of a transition that the net does not have.
fn is_unknown(w: u32, transitions: usize) -> bool
    ensures { result ≡ (is_pick w && leb transitions (pick_transition w)) }
{
    is_pick(w) && transitions <= (w / 16384 % 256) as usize
}

// The first well-formed pick of a transition not below a number.
pub fn first_unknown(picks: &[u32], transitions: usize) -> Option<usize>
    ensures { option_of result ≡ first_unknown transitions picks.now }
{
    picks.iter().position(|w| is_unknown(*w, transitions))
}

// The first word that is no pick.
pub fn first_malformed(picks: &[u32]) -> Option<usize>
    ensures { option_of result ≡ first_malformed picks.now }
{
    picks.iter().position(|w| !is_pick(*w))
}
