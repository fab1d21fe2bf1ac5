// Refusals: why a call is refused, and at which word. specs/Answer.antt gives each the number and the position that a caller is told.
ghost use Rattle.std.specs.Prelude.{◌≡◌};
ghost use Rattle.semantics.specs.Answer.{number_of, position_of};

// First those for the input, with the position of the word that cannot be taken, then those for the state.
#[derive(Clone, Copy, Debug, PartialEq, Eq)]
pub enum Refusal {
    NetTooLong(usize),
    NetEndsEarly(usize),
    BadWord(usize),
    WordsLeft(usize),
    UnfitPlan(usize),
    NoTransition(usize),
    BadMarking(usize),
    BadBinding(usize),
    BadPick(usize),
    OverBudget,
    OverMenu,
    NoSuchIndex,
    NotEnabled,
    BadOutput,
    OverCount,
    OverRoom,
}

impl Refusal {
    // The number that a caller is told.
    pub fn number(self) -> u32
        ensures { result ≡ number_of self }
    {
        match self {
            Refusal::NetTooLong(_) => 1,
            Refusal::NetEndsEarly(_) => 2,
            Refusal::BadWord(_) => 3,
            Refusal::WordsLeft(_) => 4,
            Refusal::UnfitPlan(_) => 5,
            Refusal::NoTransition(_) => 6,
            Refusal::BadMarking(_) => 7,
            Refusal::BadBinding(_) => 8,
            Refusal::BadPick(_) => 9,
            Refusal::OverBudget => 10,
            Refusal::OverMenu => 11,
            Refusal::NoSuchIndex => 12,
            Refusal::NotEnabled => 13,
            Refusal::BadOutput => 14,
            Refusal::OverCount => 15,
            Refusal::OverRoom => 16,
        }
    }

    // The position that a caller is told, 0 for those for the state.
    pub fn position(self) -> usize
        ensures { result ≡ position_of self }
    {
        match self {
            Refusal::NetTooLong(at)
            | Refusal::NetEndsEarly(at)
            | Refusal::BadWord(at)
            | Refusal::WordsLeft(at)
            | Refusal::UnfitPlan(at)
            | Refusal::NoTransition(at)
            | Refusal::BadMarking(at)
            | Refusal::BadBinding(at)
            | Refusal::BadPick(at) => at,
            Refusal::OverBudget
            | Refusal::OverMenu
            | Refusal::NoSuchIndex
            | Refusal::NotEnabled
            | Refusal::BadOutput
            | Refusal::OverCount
            | Refusal::OverRoom => 0,
        }
    }
}
