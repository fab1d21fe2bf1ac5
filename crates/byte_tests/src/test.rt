// Test on little-endian bytes.
ghost use Rattle.std.specs.Prelude.{◌≡◌, ◌≤◌, ◌/◌, min, length};
ghost use Rattle.semantics.specs.Word.{words_of_bytes};
ghost use Rattle.semantics.specs.Answer.{tested_of};
ghost use Rattle.semantics.specs.Calls.{test_call, test_bytes_call};

use byte_checks::buffer::words_in;
use semantics::refusal::Refusal;
use testing::test::test;

// Test on the words of bytes, in lent buffers.
fn test_in(
    net: &[u8],
    transition: u32,
    marking: &[u8],
    binding: &[u8],
    net_words: &mut [u32],
    marking_words: &mut [u32],
    binding_words: &mut [u32],
) -> Result<bool, Refusal>
    requires net_in_bounds { min (length net.now / 4) 16385 ≤ length net_words.old }
    requires marking_in_bounds { min (length marking.now / 4) 16385 ≤ length marking_words.old }
    requires binding_in_bounds { min (length binding.now / 4) 16385 ≤ length binding_words.old }
    ensures { tested_of result ≡ test_call (words_of_bytes net.now) transition (words_of_bytes marking.now) (words_of_bytes binding.now) }
{
    test(
        words_in(net, net_words),
        transition,
        words_in(marking, marking_words),
        words_in(binding, binding_words),
    )
}

// Test on the words of bytes. Few of them go into small buffers: large ones take longer to clear than a small net and marking to test.
fn test_words(net: &[u8], transition: u32, marking: &[u8], binding: &[u8]) -> Result<bool, Refusal>
    ensures { tested_of result ≡ test_call (words_of_bytes net.now) transition (words_of_bytes marking.now) (words_of_bytes binding.now) }
{
    if net.len() <= 4096 && marking.len() <= 4096 && binding.len() <= 64 {
        return test_in(
            net,
            transition,
            marking,
            binding,
            &mut [0u32; 1024],
            &mut [0u32; 1024],
            &mut [0u32; 16],
        );
    }
    test_in(
        net,
        transition,
        marking,
        binding,
        &mut [0u32; 16385],
        &mut [0u32; 16385],
        &mut [0u32; 16385],
    )
}

// Test on little-endian bytes.
pub fn test_bytes(
    net: &[u8],
    transition: u32,
    marking: &[u8],
    binding: &[u8],
) -> Result<bool, Refusal>
    ensures { tested_of result ≡ test_bytes_call net.now transition marking.now binding.now }
{
    if net.len() % 4 != 0 {
        return Err(Refusal::NetEndsEarly(net.len() / 4));
    }
    if marking.len() % 4 != 0 {
        return Err(Refusal::BadMarking(marking.len() / 4));
    }
    if binding.len() % 4 != 0 {
        return Err(Refusal::BadBinding(binding.len() / 4));
    }
    test_words(net, transition, marking, binding)
}
