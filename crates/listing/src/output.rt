// Standard output as a writer, at once and by the line. A write that fails is passed over: what a program prints is all that it answers.
use std::fmt;

// At once: each text goes out as it comes.
#[derive(Clone, Copy)]
pub struct Output;

impl fmt::Write for Output {
    fn write_str(&mut self, s: &str) -> fmt::Result {
        io::write_all(1, s.as_bytes());
        Ok(())
    }
}

// Room for a line; those of a listing have less than half of it.
const MOST: usize = 4096;

// By the line: it waits here for its end and goes out in one write, so that none is parted by what others print to the same place, and none is lost in part.
// One that is longer goes out in parts of that room; what is left of a line that never ends is not printed.
#[derive(Clone, Copy)]
pub struct LineOutput {
    line: [u8; MOST],
    length: usize,
}

impl LineOutput {
    pub fn new() -> LineOutput {
        LineOutput {
            line: [0; MOST],
            length: 0,
        }
    }

    // One byte more; the line goes out at its end, or where there is no more room.
    fn put(&mut self, byte: u8) {
        let at = self.length.min(MOST - 1);
        self.line[at] = byte;
        self.length = at + 1;
        if byte == b'\n' || self.length == MOST {
            io::write_all(1, &self.line[..=at]);
            self.length = 0;
        }
    }
}

impl fmt::Write for LineOutput {
    fn write_str(&mut self, s: &str) -> fmt::Result {
        for &byte in s.as_bytes() {
            self.put(byte);
        }
        Ok(())
    }
}
