// Guards, told from the words of their conjuncts under lent binding words.
ghost use Rattle.std.specs.Prelude.{◌≡◌, length};
ghost use Rattle.semantics.specs.Lists.{Every};
ghost use Rattle.semantics.specs.ReadNet.{read_conjunct};
ghost use Rattle.net.specs.Standing.{HasConjunct};
ghost use Rattle.evaluation.specs.Evaluate.{lent};
ghost use Rattle.guards.specs.Guard.{conjunct_holds, guard_at};

use evaluation::evaluate::evaluate;
use numbers::number::compared;
use word::fields::payload;

// Whether the conjunct that stands at a position holds: both sides have values, and these are related.
pub fn holds_at(net: &[u32], binding: &[u32], at: usize) -> bool
    requires { HasConjunct net.now (length binding.now) at }
    ensures { result ≡ conjunct_holds (lent binding.now) (read_conjunct net.now (length binding.now) at) }
{
    let relation = payload(net[at]);
    let left = evaluate(net, binding, at + 1);
    // A left side without value settles it: the right one is not evaluated then.
    let Some(_) = left.value else {
        return false;
    };
    let right = evaluate(net, binding, left.next);
    compared(relation, left.value, right.value)
}

// Whether the conjuncts that stand at these positions all hold.
pub fn guard_holds(net: &[u32], binding: &[u32], ats: &[usize]) -> bool
    requires { Every (HasConjunct net.now (length binding.now)) ats.now }
    ensures { result ≡ guard_at net.now binding.now ats.now }
{
    for at in ats {
        if !holds_at(net, binding, *at) {
            return false;
        }
    }
    true
}

// The same where it is likely that there is no conjunct: then nothing is called. A search asks so at every leaf.
pub fn guard_passes(net: &[u32], binding: &[u32], ats: &[usize]) -> bool
    requires { Every (HasConjunct net.now (length binding.now)) ats.now }
    ensures { result ≡ guard_at net.now binding.now ats.now }
{
    ats.is_empty() || guard_holds(net, binding, ats)
}
