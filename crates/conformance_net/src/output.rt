// Standard output as a writer.
use std::fmt;

// A write that fails is passed over: the lines are all that the program answers.
#[derive(Clone, Copy)]
pub struct Output;

impl Output {
    // Bytes as they are, which may be no text.
    pub fn put(&mut self, bytes: &[u8]) {
        io::write_all(1, bytes);
    }
}

impl fmt::Write for Output {
    fn write_str(&mut self, s: &str) -> fmt::Result {
        self.put(s.as_bytes());
        Ok(())
    }
}
