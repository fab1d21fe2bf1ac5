// The words of bytes in a lent buffer.
ghost use Rattle.std.specs.Prelude.{◌≤◌, ◌/◌, min, length};
ghost use Rattle.semantics.specs.Word.{words_of_bytes};
ghost use Rattle.byte_checks.specs.Alike.{ReadAlike};

use word::bytes::words_of_bytes;

// The words of bytes, put into a lent buffer; spare bytes are left out. No reader looks past the word 16,384, so room for that one and those before is enough.
pub fn words_in<'a>(bytes: &[u8], buffer: &'a mut [u32]) -> &'a [u32]
    requires { min (length bytes.now / 4) 16385 ≤ length buffer.old }
    ensures { ReadAlike result.now (words_of_bytes bytes.now) }
{
    let n = words_of_bytes(bytes, buffer);
    let words = &buffer[..];
    &words[..n]
}
