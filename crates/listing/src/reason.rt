// Why a word is refused, in words.
use crate::state::Due;
use semantics::refusal::Refusal;
use std::fmt;

// A refusal of check where a kind of word is due, at a word of a kind, 0 where the words end.
#[derive(Clone, Copy)]
pub struct Refused {
    pub refusal: Refusal,
    pub due: Due,
    pub kind: u32,
}

// The word that is due.
fn due_text(due: Due) -> &'static str {
    match due {
        Due::Net => "a NET word is due here, of kind 1",
        Due::Place => "a PLACE word is due here, of kind 2",
        Due::Range => "a RANGE word is due here, of kind 3",
        Due::Transition => "a TRANSITION word is due here, of kind 4",
        Due::Arc => "an ARC word is due here, of kind 5",
        Due::Conjunct => "a CONJUNCT word is due here, of kind 6",
        Due::Expression => "a word of an expression is due here, of kind 7, 8 or 9",
        Due::Element => "an ELEMENT word is due here, of kind A",
    }
}

// What is wrong with a word: its bits where it is of the kind that is due, and else its kind.
fn bad_word(due: Due, kind: u32) -> &'static str {
    match (due, kind) {
        (Due::Net, 1) => "places and transitions are 1 to 64 each, in bits 0 to 15",
        (Due::Place, 2) => "components are 1 to 4, in bits 0 to 2",
        (Due::Range, 3) =>
            "the low value, in bits 14 to 27, is at most the high one, in bits 0 to 13",
        (Due::Transition, 4) =>
            "variables, arcs, conjuncts and elements are 0 to 8 each, in bits 0 to 19",
        (Due::Arc, 5) => "the place, in bits 0 to 7, is one of the net's",
        (Due::Conjunct, 6) => "the relation is in bits 0 and 1",
        (Due::Expression, 7) =>
            "the value is in bits 0 to 13, and an expression has at most 15 words",
        (Due::Expression, 8) => {
            "the variable, in bits 0 to 2, is one of the transition's, and an expression has at most 15 words"
        }
        (Due::Expression, 9) =>
            "the operator, in bits 0 to 2, is 0 to 4, and an expression has at most 15 words",
        (Due::Element, 10) =>
            "the sort, in bits 8 and 9, is 0 to 2, and the number is in bits 0 to 7",
        _ => due_text(due),
    }
}

// Why a plan is refused at a TRANSITION word or at an ELEMENT word.
fn unfit(kind: u32) -> &'static str {
    match kind {
        4 => "the plan leaves a variable unbound",
        _ => "the element binds no new variable, or what it names does not fit",
    }
}

impl Refused {
    fn reason(&self) -> &'static str {
        match self.refusal {
            Refusal::NetTooLong(_) => "a net has at most 16,384 words",
            Refusal::NetEndsEarly(_) => "the words end before the net does",
            Refusal::BadWord(_) => bad_word(self.due, self.kind),
            Refusal::WordsLeft(_) => "words are left behind the net",
            _ => unfit(self.kind),
        }
    }
}

impl fmt::Display for Refused {
    fn fmt<W: fmt::Write>(&self, f: &mut fmt::Formatter<W>) -> fmt::Result {
        write!(f, "refused {}: {}", self.refusal.number(), self.reason())
    }
}
