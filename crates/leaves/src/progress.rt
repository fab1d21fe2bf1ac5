// What a search has come to so far.

// The tries counted, the rows at the front of the menu, whether the budget is spent, and whether a row was due that had no room.
// No Result, since tries and rows count whichever flag is set.
#[derive(Clone, Copy)]
pub struct Progress {
    pub tries: u32,
    pub rows: usize,
    pub spent: bool,
    pub full: bool,
}
