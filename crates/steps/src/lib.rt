// A step: the counts that it changes are listed, and the new marking is written from the old one.
#![tactic(auto)]

// 15, 16, or the new marking and where its places begin.
pub mod step;
