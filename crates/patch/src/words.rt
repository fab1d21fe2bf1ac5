// Words copied from one slice into another.
ghost use Rattle.std.specs.Prelude.{◌≡◌, ◌≤◌, ◌+◌, ◌-◌, length};
ghost use Rattle.std.proofs.Math.Seq.{slice};
ghost use Rattle.patch.specs.Patch.{written};

// Copies the words from one position to another.
pub fn copy_words(words: &[u32], from: usize, to: usize, next: &mut [u32], at: usize)
    requires { (from ≤ to) × (to ≤ length words.now) × (at + (to - from) ≤ length next.old) }
    ensures { next.new ≡ written next.old at (slice from to words.now) }
{
    let n = to - from;
    // By a loop: `copy_from_slice` is a call of C's memmove here, of which the static library has no need, also where few words are copied.
    for j in 0..n {
        next[at + j] = words[from + j];
    }
}
