// A buffer of words, of which the first are in use.
use conformance_plain::build::{front, put};

#[derive(Clone, Copy)]
pub struct Words {
    pub words: [u32; 128],
    pub length: usize,
}

impl Words {
    pub const EMPTY: Words = Words {
        words: [0; 128],
        length: 0,
    };

    pub fn all(&self) -> &[u32] {
        front(&self.words, self.length)
    }

    // Another word at a position.
    pub fn set(&mut self, at: usize, w: u32) {
        put(&mut self.words, at, w);
    }

    // One word more.
    pub fn push(&mut self, w: u32) {
        self.length = put(&mut self.words, self.length, w);
    }
}
