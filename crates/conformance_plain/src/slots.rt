// A binding that may be partial, as eight slots: a VALUE word where a variable is bound, 0 where it is not.
use crate::build::put;
use crate::reading::{get, kind};

#[derive(Clone, Copy)]
pub struct Slots {
    pub words: [u32; 8],
}

impl Slots {
    // No variable bound.
    pub const UNBOUND: Slots = Slots { words: [0; 8] };

    // The eight slots at a position.
    pub fn at(list: &[u32], at: usize) -> Slots {
        let mut words = [0; 8];
        for (v, w) in words.iter_mut().enumerate() {
            *w = get(list, at.wrapping_add(v));
        }
        Slots { words }
    }

    // The VALUE word of a variable, where it is bound.
    pub fn slot(self, v: u32) -> Option<u32> {
        self.words.get(v as usize).copied().filter(|w| *w != 0)
    }

    // A binding with one slot written anew.
    pub fn with(self, v: u32, w: u32) -> Slots {
        let mut words = self.words;
        put(&mut words, v as usize, w);
        Slots { words }
    }

    // How many variables are bound.
    pub fn bound(self) -> usize {
        self.words.iter().filter(|w| **w != 0).count()
    }

    // The expression at a position is a variable that is not bound.
    pub fn is_new_variable(self, net: &[u32], at: usize) -> bool {
        let w = get(net, at);
        kind(w) == 8 && self.slot(w % 8).is_none()
    }
}
