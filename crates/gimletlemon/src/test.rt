// Test, with the answer told in lent numbers.
ghost use Rattle.std.specs.Prelude.{◌≡◌};
ghost use Rattle.semantics.specs.Answer.{test_refusal, test_yes};
ghost use Rattle.semantics.specs.Calls.{test_call, test_bytes_call};
ghost use Rattle.answers.specs.Told.{told};

use answers::tell::tell_test;
use byte_tests::test::test_bytes;
use testing::test::test;

// Test: the refusal's number, 0 where net, transition, marking and binding are accepted; written are 1 for yes or 0 for no, 0 where it is
// refused, and the position, 0 where there is none.
pub fn gimletlemon_test(
    net: &[u32],
    transition: u32,
    marking: &[u32],
    binding: &[u32],
    enabled: &mut u64,
    position: &mut u64,
) -> u32
    ensures position_after { told result position.new ≡ test_refusal (test_call net.now transition marking.now binding.now) }
    ensures enabled_after { enabled.new ≡ test_yes (test_call net.now transition marking.now binding.now) }
{
    tell_test(test(net, transition, marking, binding), enabled, position)
}

// The same on little-endian bytes.
pub fn gimletlemon_test_bytes(
    net: &[u8],
    transition: u32,
    marking: &[u8],
    binding: &[u8],
    enabled: &mut u64,
    position: &mut u64,
) -> u32
    ensures position_after { told result position.new ≡ test_refusal (test_bytes_call net.now transition marking.now binding.now) }
    ensures enabled_after { enabled.new ≡ test_yes (test_bytes_call net.now transition marking.now binding.now) }
{
    tell_test(
        test_bytes(net, transition, marking, binding),
        enabled,
        position,
    )
}
