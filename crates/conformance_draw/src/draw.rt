// A fixed sequence of numbers, and expressions drawn from it. A signed number is a u32 that wraps.
use conformance_plain::build::put;

// The next state of the sequence.
pub fn next(seed: u64) -> u64 {
    (seed % 0x8000_0000 * 1_103_515_245 + 12_345) % 0x8000_0000
}

// The state that a next case starts from.
pub fn jump(seed: u64) -> u64 {
    (seed % 0x8000_0000 * 69_069 + 1) % 0x8000_0000
}

// The number of a state, below n.
pub fn pick(seed: u64, n: u32) -> u32 {
    if n == 0 {
        return 0;
    }
    (seed / 0x1_0000 % 0x8000) as u32 % n
}

// The code of an operator: add and subtract more often than the others.
fn code_of(k: u32) -> u32 {
    match k {
        0..=3 => 0,
        4..=6 => 1,
        7 => 2,
        8..=9 => 3,
        _ => 4,
    }
}

// What draws words: the buffer that they go to, the position after them, and the state of the sequence.
#[derive(Drop)]
pub struct Pen<'w> {
    pub words: &'w mut [u32],
    pub at: usize,
    pub seed: u64,
}

// Words that were drawn: the position after them, and the state of the sequence.
#[derive(Clone, Copy)]
pub struct Draft {
    pub at: usize,
    pub seed: u64,
}

impl Pen<'_> {
    // One word more.
    pub fn word(&mut self, w: u32) {
        self.at = put(self.words, self.at, w);
    }

    // The number of the state, below n.
    pub fn pick(&self, n: u32) -> u32 {
        pick(self.seed, n)
    }

    // The number of the next state, below n.
    pub fn draw(&mut self, n: u32) -> u32 {
        self.seed = next(self.seed);
        self.pick(n)
    }

    pub fn end(&self) -> Draft {
        Draft {
            at: self.at,
            seed: self.seed,
        }
    }

    pub fn constant(&mut self, v: u32) {
        self.word(0x7000_0000 + v % 0x4000);
    }

    // Some variable.
    pub fn variable(&mut self, variables: u32) {
        let v = self.draw(variables);
        self.word(0x8000_0000 + v % 8);
    }

    // A variable, or a constant from -3 to 5 or at an end of the values.
    pub fn leaf(&mut self, variables: u32) {
        let k = self.draw(40);
        if 20 <= k && 0 < variables {
            self.variable(variables);
            return;
        }
        match k % 20 {
            18 => self.constant(8191),
            19 => self.constant(8192),
            small => self.constant((small / 2).wrapping_sub(3)),
        }
    }

    // An operator on leaves.
    fn shallow(&mut self, variables: u32) {
        let code = code_of(self.draw(11));
        self.word(0x9000_0000 + code % 16);
        self.leaf(variables);
        if code != 4 {
            self.leaf(variables);
        }
    }

    // An operator on leaves, or on a leaf and such an expression.
    pub fn operator(&mut self, variables: u32) {
        match self.draw(10) {
            k @ 0..=2 => {
                self.word(0x9000_0000 + k);
                self.shallow(variables);
                self.leaf(variables);
            }
            3 => {
                self.word(0x9000_0004);
                self.shallow(variables);
            }
            _ => self.shallow(variables),
        }
    }

    // A variable and -1, 0 or 1, added.
    pub fn offset(&mut self, variables: u32) {
        let k = self.draw(3);
        self.word(0x9000_0000);
        self.variable(variables);
        self.constant(k.wrapping_sub(1));
    }

    // A leaf or an operator.
    pub fn expression(&mut self, variables: u32) {
        if self.draw(2) == 0 {
            self.leaf(variables);
        } else {
            self.operator(variables);
        }
    }

    // Mostly a constant from 0 to 3.
    pub fn coefficient(&mut self, variables: u32) {
        match self.draw(20) {
            0..=2 => self.constant(0),
            3..=14 => self.constant(1),
            15..=16 => self.constant(2),
            17 => self.constant(3),
            18 => self.leaf(variables),
            _ => self.expression(variables),
        }
    }
}
