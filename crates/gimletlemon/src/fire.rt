// Fire, with the answer told in lent numbers.
ghost use Rattle.std.specs.Prelude.{◌≡◌};
ghost use Rattle.semantics.specs.Answer.{fire_refusal, fire_length};
ghost use Rattle.semantics.specs.Calls.{fire_call};
ghost use Rattle.answers.specs.Told.{told};

use answers::tell::tell_fire;
use firing::fire::fire;

// Fire: the refusal's number, 0 where the binding is fired; written are the new marking to the front of `next`, its length, 0 where it is
// refused, and the position, 0 where there is none. A refusal leaves `next` as it was.
pub fn gimletlemon_fire(
    net: &[u32],
    transition: u32,
    marking: &[u32],
    binding: &[u32],
    next: &mut [u32],
    length: &mut u64,
    position: &mut u64,
) -> u32
    ensures position_after { told result position.new ≡ fire_refusal (fire_call net.now transition marking.now binding.now next.old).answer }
    ensures length_after { length.new ≡ fire_length (fire_call net.now transition marking.now binding.now next.old).answer }
    ensures next_after { next.new ≡ (fire_call net.now transition marking.now binding.now next.old).buffer }
{
    tell_fire(
        fire(net, transition, marking, binding, next),
        length,
        position,
    )
}
