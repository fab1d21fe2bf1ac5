// The call check: whether words are a net, and if not, why.
ghost use Rattle.std.specs.Prelude.{◌≡◌};
ghost use Rattle.semantics.specs.Answer.{verdict_of};
ghost use Rattle.semantics.specs.Calls.{check_call};

use crate::accepted::accepted_end;
use semantics::refusal::Refusal;

// Whether the words are a net: accepted, or the refusal and its position.
pub fn check(net: &[u32]) -> Result<(), Refusal>
    ensures { verdict_of result ≡ check_call net.now }
{
    accepted_end(net, net.len())?;
    Ok(())
}
