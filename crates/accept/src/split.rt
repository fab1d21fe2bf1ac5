// The call split: a net at the front of a slice, and the words after it.
ghost use Rattle.std.specs.Prelude.{◌≡◌};
ghost use Rattle.semantics.specs.Calls.{split_call};
ghost use Rattle.accept.specs.Front.{IsFront, split_into};

use crate::accepted::accepted_end;
use semantics::refusal::Refusal;

// Where the net at the front of words ends.
fn front(words: &[u32]) -> Result<usize, Refusal>
    ensures { IsFront words.now result }
{
    accepted_end(words, 0)
}

// The words after the net at the front, or none where it is refused; the refusal and its position, 0 and 0 where there is none.
pub fn split<'a>(words: &'a [u32], refusal: &mut u32, position: &mut usize) -> &'a [u32]
    ensures { split_into result.now refusal.new position.new ≡ split_call words.now }
{
    match front(words) {
        Ok(next) => {
            *refusal = 0;
            *position = 0;
            &words[next..]
        }
        Err(e) => {
            *refusal = e.number();
            *position = e.position();
            &words[..0]
        }
    }
}
