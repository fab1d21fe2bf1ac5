// Bindings: refusal 8.
ghost use Rattle.std.specs.Prelude.{◌≡◌, ◌≤◌, ◌+◌, length};
ghost use Rattle.expression.specs.Skip.{forget, skipped};
ghost use Rattle.net.specs.Places.{ranges_from};
ghost use Rattle.marking.specs.Marked.{binding_read};

use colours::values::read_values;
use semantics::refusal::Refusal;

// Where the binding ends that the words are, of n variables whose ranges stand in the net from a position on.
pub fn read_binding(net: &[u32], from: usize, n: usize, words: &[u32]) -> Result<usize, Refusal>
    requires { from + n ≤ length net.now }
    ensures { skipped result ≡ forget (binding_read (ranges_from net.now n from) words.now) }
{
    let next = read_values(words, 0, net, from, n).map_err(|e| Refusal::BadBinding(e.position()))?;
    if next < words.len() {
        return Err(Refusal::BadBinding(next));
    }
    Ok(next)
}
