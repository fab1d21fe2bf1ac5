// Check and split, with the answer told in lent numbers.
ghost use Rattle.std.specs.Prelude.{◌≡◌, ◌-◌, length, drop};
ghost use Rattle.semantics.specs.Answer.{check_refusal};
ghost use Rattle.semantics.specs.Calls.{check_call, split_call, check_bytes_call};
ghost use Rattle.accept.specs.Front.{split_into};
ghost use Rattle.answers.specs.Told.{told};

use accept::check::check;
use accept::split::split;
use answers::tell::tell_check;
use byte_checks::check::check_bytes;

// Check: the refusal's number, 0 where the net is accepted; its position is written, 0 where there is none.
pub fn gimletlemon_check(net: &[u32], position: &mut u64) -> u32
    ensures { told result position.new ≡ check_refusal (check_call net.now) }
{
    tell_check(check(net), position)
}

// The same on little-endian bytes.
pub fn gimletlemon_check_bytes(net: &[u8], position: &mut u64) -> u32
    ensures { told result position.new ≡ check_refusal (check_bytes_call net.now) }
{
    tell_check(check_bytes(net), position)
}

// Split: the same for a net at the front of words. Where the words after the net begin is written too, the number of words where the net is
// refused.
pub fn gimletlemon_split(words: &[u32], rest: &mut u64, position: &mut u64) -> u32
    ensures position_after { split_into (drop rest.new words.now) result position.new ≡ split_call words.now }
    ensures rest_after { rest.new ≡ length words.now - length (split_call words.now).rest }
{
    let mut number = 0u32;
    let mut at = 0usize;
    let after = split(words, &mut number, &mut at);
    *rest = (words.len() - after.len()) as u64;
    *position = at as u64;
    number
}
