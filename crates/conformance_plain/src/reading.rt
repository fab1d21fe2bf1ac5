// Where the parts of an accepted net and of a marking stand, read from document 01. Nothing is checked: a word beyond the end reads as 0, and positions wrap,
// so that no sum of them has to be shown to fit.
ghost use Rattle.std.specs.Prelude.{◌<◌};

// The word at a position, 0 beyond the end.
pub fn get(words: &[u32], at: usize) -> u32 {
    words.get(at).copied().unwrap_or(0)
}

// The top four bits.
pub fn kind(w: u32) -> u32 {
    w / 0x1000_0000
}

// The value in the low 14 bits of a word.
pub fn signed(w: u32) -> i32 {
    let bits = (w % 0x4000) as i32;
    if bits < 0x2000 { bits } else { bits - 0x4000 }
}

// How many expressions are due after a word of an expression.
fn due_after(due: u32, w: u32) -> u32 {
    if kind(w) != 9 {
        return due.wrapping_sub(1);
    }
    if w % 8 == 4 {
        return due;
    }
    due.wrapping_add(1)
}

// The position after an expression, which has at most 15 words.
pub fn skip(net: &[u32], start: usize) -> usize {
    let mut at = start;
    let mut due = 1;
    for _ in 0..15 {
        if due == 0 {
            return at;
        }
        due = due_after(due, get(net, at));
        at = at.wrapping_add(1);
    }
    at
}

// The position after several expressions.
pub fn skip_several(net: &[u32], start: usize, count: u32) -> usize {
    let mut at = start;
    for _ in 0..count {
        at = skip(net, at);
    }
    at
}

// How many places a net has.
pub fn place_count(net: &[u32]) -> u32 {
    get(net, 0) / 256 % 256
}

// The position of a PLACE word, or after all places.
pub fn place_at(net: &[u32], place: u32) -> usize {
    let mut at: usize = 1;
    for _ in 0..place {
        at = at.wrapping_add(get(net, at) as usize % 8 + 1);
    }
    at
}

// How many components the colours of a place have.
pub fn components(net: &[u32], place: u32) -> u32 {
    get(net, place_at(net, place)) % 8
}

// The position of a place's first RANGE.
pub fn ranges_at(net: &[u32], place: u32) -> usize {
    place_at(net, place).wrapping_add(1)
}

// The place that an ARC word names.
pub fn place_of(net: &[u32], arc: usize) -> u32 {
    get(net, arc) % 256
}

fn skip_arc(net: &[u32], at: usize) -> usize {
    skip_several(
        net,
        at.wrapping_add(1),
        components(net, place_of(net, at)) % 8 + 1,
    )
}

// The position after several arcs.
pub fn skip_arcs(net: &[u32], start: usize, count: u32) -> usize {
    let mut at = start;
    for _ in 0..count {
        at = skip_arc(net, at);
    }
    at
}

// The position after several conjuncts.
pub fn skip_conjuncts(net: &[u32], start: usize, count: u32) -> usize {
    let mut at = start;
    for _ in 0..count {
        at = skip_several(net, at.wrapping_add(1), 2);
    }
    at
}

// A transition of a net: how many parts of each sort it has, and where they stand.
#[derive(Clone, Copy)]
pub struct Shape<'n> {
    pub net: &'n [u32],
    pub at: usize,
    pub variables: u32,
    pub inputs: u32,
    pub outputs: u32,
    pub conjuncts: u32,
    pub elements: u32,
    pub ranges: usize,
    pub inputs_at: usize,
    pub outputs_at: usize,
    pub conjuncts_at: usize,
    pub elements_at: usize,
}

impl<'n> Shape<'n> {
    // The transition whose word stands at a position.
    pub fn at(net: &'n [u32], at: usize) -> Shape<'n> {
        let w = get(net, at);
        let ranges = at.wrapping_add(1);
        let inputs_at = ranges.wrapping_add(w as usize % 16);
        let outputs_at = skip_arcs(net, inputs_at, w / 16 % 16);
        let conjuncts_at = skip_arcs(net, outputs_at, w / 256 % 16);
        let elements_at = skip_conjuncts(net, conjuncts_at, w / 4096 % 16);
        Shape {
            net,
            at,
            variables: w % 16,
            inputs: w / 16 % 16,
            outputs: w / 256 % 16,
            conjuncts: w / 4096 % 16,
            elements: w / 0x1_0000 % 16,
            ranges,
            inputs_at,
            outputs_at,
            conjuncts_at,
            elements_at,
        }
    }

    // The position after the transition.
    fn end(self) -> usize {
        self.elements_at.wrapping_add(self.elements as usize)
    }

    // The RANGE of a variable.
    pub fn range(self, v: u32) -> u32 {
        get(self.net, self.ranges.wrapping_add(v as usize))
    }

    // The position of an input arc.
    pub fn input(self, number: u32) -> usize {
        skip_arcs(self.net, self.inputs_at, number)
    }

    // The position of a conjunct.
    pub fn conjunct(self, number: u32) -> usize {
        skip_conjuncts(self.net, self.conjuncts_at, number)
    }

    // An element of the plan.
    pub fn element(self, number: u32) -> u32 {
        get(self.net, self.elements_at.wrapping_add(number as usize))
    }
}

// A transition by its number.
pub fn shape_of(net: &[u32], transition: u32) -> Shape<'_> {
    let mut at = place_at(net, place_count(net));
    for _ in 0..transition {
        at = Shape::at(net, at).end();
    }
    Shape::at(net, at)
}

// How many values a RANGE word has.
pub fn values(range: u32) -> u32
    ensures { 0 < result }
{
    (range % 0x4000).wrapping_sub(range / 0x4000) % 0x4000 + 1
}

// The VALUE word of the value that is so many above a range's low one.
pub fn value_above(range: u32, above: u32) -> u32 {
    0xC000_0000 + (range / 0x4000).wrapping_add(above) % 0x4000
}

// Whether the value in the low 14 bits of a word is in a range.
pub fn in_range(range: u32, w: u32) -> bool {
    (signed(range / 0x4000)..=signed(range)).contains(&signed(w))
}

// The position of the first entry of a place from a start on.
pub fn next_entry(net: &[u32], marking: &[u32], start: usize, place: u32) -> Option<usize> {
    let mut at = start;
    // An entry has a word at least.
    for _ in marking {
        let p = *marking.get(at)? / 0x4000 % 256;
        if p == place {
            return Some(at);
        }
        at = at.wrapping_add(components(net, p) as usize % 8 + 1);
    }
    None
}
