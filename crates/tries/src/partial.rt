// Partial bindings as words: a slot for each variable, which holds a VALUE word where the variable is bound and 0 where it is not. The slots are lent,
// since a copy for each try, with one word set, is loaded right after that word is stored, and the processor waits for it. So a try writes into them,
// and what it wrote is taken back before the next.
ghost use Rattle.std.specs.Prelude.{◌≡◌, ◌≤◌, ◌+◌, length, take};
ghost use Rattle.std.proofs.Math.ListN.{get_elem?};
ghost use Rattle.semantics.specs.Tries.{bind_new};
ghost use Rattle.net.specs.Places.{ranges_from};
ghost use Rattle.tries.specs.Partial.{partial_of, IsTried, IsSaved};

use colours::range::in_range;
use word::fields::value_word;
use word::size::at_most;

// Keeps the words of the slots, to be put back.
pub fn save(slots: &[u32], saved: &mut [u32; 8])
    requires { (length slots.now ≤ 8) × (length saved.old ≡ 8) }
    ensures { IsSaved slots.now saved.new }
{
    for n in 0..slots.len() {
        saved[n] = slots[n];
    }
}

// Puts the words back that were kept. A word is stored only where it differs, since a plain copy becomes a call that takes longer than so few words.
pub fn restore(slots: &mut [u32], saved: &[u32; 8])
    requires { (length slots.old ≤ 8) × (length saved.now ≡ 8) }
    ensures { slots.new ≡ take (length slots.old) saved.now }
{
    let many = at_most(8, slots.len());
    for i in 0..many {
        let w = saved[i];
        if slots[i] != w {
            slots[i] = w;
        }
    }
}

// Binds a variable to a new value, where the value is in its range; the RANGE words of the variables stand from a position on.
pub fn bind_new(
    net: &[u32],
    ranges: usize,
    variables: usize,
    slots: &mut [u32],
    n: usize,
    z: i32,
) -> bool
    requires { (length slots.old ≡ variables) × (ranges + variables ≤ length net.now) }
    ensures { IsTried variables (bind_new (partial_of variables slots.old) n (get_elem? (ranges_from net.now variables ranges) n) z) slots.old result slots.new }
{
    if variables <= n {
        return false;
    }
    if !in_range(net[ranges + n], z) {
        return false;
    }
    slots[n] = value_word(z);
    true
}
