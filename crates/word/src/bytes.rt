// Words from little-endian bytes.
ghost use Rattle.std.specs.Prelude.{◌≡◌, ◌++◌, ◌+◌, ◌*◌, ◌/◌, ◌^◌, min, length, take, drop};
ghost use Rattle.semantics.specs.Word.{words_of_bytes};

// The word of four bytes, the least significant first.
fn word_of(a: u8, b: u8, c: u8, d: u8) -> u32
    ensures { result ≡ a + b * 2 ^ 8 + c * 2 ^ 16 + d * 2 ^ 24 }
{
    u32::from_le_bytes([a, b, c, d])
}

// Writes the words of bytes to the front of a buffer, as many as it has room for, and answers how many; words beyond stay.
pub fn words_of_bytes(bytes: &[u8], words: &mut [u32]) -> usize
    ensures value { result ≡ min (length bytes.now / 4) (length words.old) }
    ensures words_after { words.new ≡ take result (words_of_bytes bytes.now) ++ drop result words.old }
{
    let n = words.len().min(bytes.len() / 4);
    for i in 0..n {
        words[i] = word_of(
            bytes[4 * i],
            bytes[4 * i + 1],
            bytes[4 * i + 2],
            bytes[4 * i + 3],
        );
    }
    n
}
