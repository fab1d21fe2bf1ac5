// Words: their kind and fields, values of 14 bits, ranges, and the VALUE and TOKEN words that are written. Rests on the definitions alone.
ghost use Rattle.std.specs.Prelude.{◌≡◌, ◌<◌, ◌%◌};
ghost use Rattle.std.specs.Int.Signed.{mag};
ghost use Rattle.semantics.specs.Word.{kind, payload, signed, modulo, value_word, token_word, within};
ghost use Rattle.word.specs.Fields.{ends, range, range_word};

// A net has at most this many words, and so has a marking.
pub const MOST_WORDS: usize = 16384;

// The top four bits of a word.
pub fn kind(w: u32) -> u32
    ensures { (result ≡ kind w) × (result < 16) }
{
    w / 0x1000_0000
}

// The other 28.
pub fn payload(w: u32) -> u32
    ensures { (result ≡ payload w) × (result < 0x1000_0000) }
{
    w % 0x1000_0000
}

// The value of the low 14 bits: 8,192 more, without carry, is 8,192 above it. So no test stands in the way of the many that read a value.
pub fn signed(w: u32) -> i32
    ensures { (result ≡ signed (w % 16384)) × (mag result < 8192) }
{
    let above = (w % 16384 + 8192) % 16384;
    above as i32 - 8192
}

// The r in 0 to d - 1 that differs from x by a multiple of d. !x is n for x = -(n + 1).
pub fn modulo(x: i32, d: u32) -> u32
    requires { 0 < d }
    ensures { (result ≡ modulo x d) × (result < d) }
{
    if x < 0 {
        d - 1 - (!x as u32) % d
    } else {
        (x as u32) % d
    }
}

// A VALUE word.
pub fn value_word(z: i32) -> u32
    ensures { result ≡ value_word z }
{
    0xC000_0000 + modulo(z, 16384)
}

// A TOKEN word.
pub fn token_word(place: u32, count: u32) -> u32
    requires { (place < 256) × (count < 16384) }
    ensures { result ≡ token_word place count }
{
    0xB000_0000 + place * 16384 + count
}

// A range of values, its ends included.
#[derive(Clone, Copy)]
pub struct Range {
    pub low: i32,
    pub high: i32,
}

// The range of a RANGE word.
pub fn range_of(w: u32) -> Range
    ensures { range result ≡ range_word w }
{
    Range {
        low: signed(w / 16384),
        high: signed(w),
    }
}

// Whether z is low to high.
pub fn within(low: i32, high: i32, z: i32) -> bool
    ensures { result ≡ within (ends low high) z }
{
    low <= z && z <= high
}
