// A range try: a variable takes a value of its range.
ghost use Rattle.std.specs.Prelude.{◌≡◌, ◌≤◌, ◌<◌, ◌+◌, length, get_or, set};
ghost use Rattle.std.proofs.Math.Option.{some};
ghost use Rattle.tries.specs.Partial.{partial_of, IsTried};
ghost use Rattle.tries.specs.Range.{value_at, CountsValues};

// How many values a range has, told from its RANGE word.
pub fn count_values(range: u32) -> usize
    ensures { CountsValues range result }
{
    let low = range / 16384 % 16384;
    let high = range % 16384;
    ((high + 16384 - low) % 16384) as usize + 1
}

// A variable takes the value that is so many above the low end of its range, in 14 bits.
pub fn take_value(
    net: &[u32],
    ranges: usize,
    variables: usize,
    slots: &mut [u32],
    n: usize,
    i: usize,
) -> bool
    requires slots_len { (length slots.old ≡ variables) × (ranges + variables ≤ length net.now) }
    requires n_lt_variables { (n < variables) × (i < 16384) }
    ensures { IsTried variables (some (set (partial_of variables slots.old) n (some (value_at (get_or net.now (ranges + n) 0) i)))) slots.old result slots.new }
{
    let low = net[ranges + n] / 16384 % 16384;
    slots[n] = 0xC000_0000 + (low + i as u32) % 16384;
    true
}
