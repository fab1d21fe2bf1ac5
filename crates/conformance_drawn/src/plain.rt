// Firing on counts as document 01 says it, one count for each of the twelve colours of the nets of `nets`, in the order of markings.

pub const COLOURS: usize = 12;

pub type Counts = [u32; COLOURS];

// What an arc says under a binding: how many tokens, and which count is its colour's, where its place has the colour.
#[derive(Clone, Copy)]
pub struct Flow {
    pub coefficient: i32,
    pub cell: Option<usize>,
}

// What the arcs that pass move of each colour, and whether each arc passes.
// No Option, since the sums count where an arc does not pass, too.
#[derive(Clone, Copy)]
pub struct Moved {
    pub good: bool,
    pub sums: Counts,
}

impl Moved {
    pub const NOTHING: Moved = Moved {
        good: true,
        sums: [0; COLOURS],
    };

    // One arc more, which passes where it has values, no negative coefficient, and a colour of its place where the coefficient is positive. (An input of a
    // colour that the place does not have is more than the 0 marked.)
    pub fn add(&mut self, flow: Option<Flow>) {
        match flow {
            Some(Flow { coefficient: 0, .. }) => {}
            Some(
                Flow {
                    coefficient,
                    cell: Some(cell),
                },
            ) if 0 < coefficient => self.add_tokens(cell, coefficient.cast_unsigned()),
            _ => self.good = false,
        }
    }

    fn add_tokens(&mut self, cell: usize, n: u32) {
        if let Some(sum) = self.sums.get_mut(cell) {
            *sum = sum.wrapping_add(n);
        }
    }
}

// Whether each sum is at most its count.
pub fn covered(sums: &Counts, counts: &Counts) -> bool {
    sums.iter().zip(counts).all(|(sum, count)| *sum <= *count)
}

// Count - inputs + outputs for each colour; whether each is at most 16,383.
pub fn move_tokens(counts: &mut Counts, taken: &Counts, given: &Counts) -> bool {
    for i in 0..COLOURS {
        counts[i] = counts[i].wrapping_sub(taken[i]).wrapping_add(given[i]);
    }
    counts.iter().all(|count| *count <= 16383)
}
