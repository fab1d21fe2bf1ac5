// The call test: whether a binding of a transition is enabled in a marking. Rests on situations and occurrence.
ghost use Rattle.std.specs.Prelude.{◌≡◌};
ghost use Rattle.semantics.specs.Answer.{tested_of};
ghost use Rattle.semantics.specs.Calls.{test_call};

use marking::binding::read_binding;
use occurrence::enabled::is_enabled;
use semantics::refusal::Refusal;
use situations::situation::prepare;

// Yes or no, or the first refusal of net, transition, marking and binding, in that order.
pub fn test(net: &[u32], transition: u32, marking: &[u32], binding: &[u32]) -> Result<bool, Refusal>
    ensures { tested_of result ≡ test_call net.now transition marking.now binding.now }
{
    let mut places_at = [0usize; 64];
    let mut own = [0usize; 64];
    let mut begins = [0usize; 65];
    let s = prepare(
        net,
        transition,
        marking,
        &mut places_at,
        &mut own,
        &mut begins,
    )?;
    let t = s.transition;
    read_binding(net, s.position + 1, t.variables, binding)?;
    let yes = is_enabled(
        net,
        &places_at[..s.places],
        &own[16..16 + t.conjuncts],
        &own[..t.inputs],
        marking,
        &begins,
        binding,
    );
    Ok(yes)
}
