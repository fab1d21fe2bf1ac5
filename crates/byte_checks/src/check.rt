// Check on little-endian bytes.
ghost use Rattle.std.specs.Prelude.{◌≡◌, ◌≤◌, ◌/◌, min, length};
ghost use Rattle.semantics.specs.Word.{words_of_bytes};
ghost use Rattle.semantics.specs.Answer.{verdict_of};
ghost use Rattle.semantics.specs.Calls.{check_call, check_bytes_call};

use crate::buffer::words_in;
use accept::check::check;
use semantics::refusal::Refusal;

// Check on the words of bytes, in a lent buffer.
fn check_in(net: &[u8], words: &mut [u32]) -> Result<(), Refusal>
    requires { min (length net.now / 4) 16385 ≤ length words.old }
    ensures { verdict_of result ≡ check_call (words_of_bytes net.now) }
{
    check(words_in(net, words))
}

// Check on little-endian bytes. Few of them go into a small buffer: a large one takes longer to clear than a small net to check.
pub fn check_bytes(net: &[u8]) -> Result<(), Refusal>
    ensures { verdict_of result ≡ check_bytes_call net.now }
{
    let count = net.len() / 4;
    if net.len() % 4 != 0 {
        return Err(Refusal::NetEndsEarly(count));
    }
    if net.len() <= 4096 {
        return check_in(net, &mut [0u32; 1024]);
    }
    check_in(net, &mut [0u32; 16385])
}
