// Sizes.
ghost use Rattle.std.specs.Prelude.{◌≡◌, min};

// The lesser of a size and the most that it may be.
pub fn at_most(most: usize, n: usize) -> usize
    ensures { result ≡ min n most }
{
    n.min(most)
}
