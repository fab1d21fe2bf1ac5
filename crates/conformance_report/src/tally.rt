// Numbers of cases by kind. Refusals stand at their numbers, cases without one at 0; from 17 on each program has kinds of its own.

// How many there are of each kind, and how many comparisons showed a difference.
#[derive(Clone, Copy)]
pub struct Tally {
    pub counts: [u32; 40],
    pub different: u32,
}

impl Tally {
    pub fn new() -> Tally {
        Tally {
            counts: [0; 40],
            different: 0,
        }
    }

    // So many more of a kind.
    pub fn add(&mut self, kind: usize, n: u32) {
        if let Some(count) = self.counts.get_mut(kind) {
            *count = count.wrapping_add(n);
        }
    }

    // One more of a kind, if so.
    pub fn add_if(&mut self, kind: usize, is_so: bool) {
        self.add(kind, u32::from(is_so));
    }

    // One more difference.
    pub fn differ(&mut self) {
        self.different = self.different.wrapping_add(1);
    }

    // How many there are of a kind.
    fn count(&self, kind: usize) -> u32 {
        self.counts.get(kind).copied().unwrap_or(0)
    }

    fn say(&self, kind: usize) {
        io::write_all(1, b": ");
        io::print_decimal(1, u64::from(self.count(kind)));
        io::write_all(1, b"\n");
    }

    // A line with a number.
    pub fn line(&self, name: &str, kind: usize) {
        io::write_all(1, name.as_bytes());
        self.say(kind);
    }

    // A line for each name, with the numbers of the kinds from the first on.
    pub fn lines(&self, names: &[&str], first: usize) {
        for (i, name) in names.iter().enumerate() {
            self.line(name, first.wrapping_add(i));
        }
    }

    // The cases by their answer: those without a refusal under a name, and those refused with a number, where there are some.
    pub fn answers(&self, name: &str) {
        self.line(name, 0);
        for number in 1..17usize {
            if self.count(number) != 0 {
                io::write_all(1, b"refused ");
                io::print_decimal(1, number as u64);
                self.say(number);
            }
        }
    }

    // What was compared, and whether there was a difference.
    pub fn end(&self) {
        if self.different == 0 {
            io::write_all(1, b"no difference\n");
            return;
        }
        io::write_all(1, b"differences: ");
        io::print_decimal(1, u64::from(self.different));
        io::write_all(1, b"\n");
    }
}
