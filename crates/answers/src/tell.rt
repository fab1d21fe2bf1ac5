// Answers told to a C program: the refusal's number is returned, 0 for none, and the other numbers are written for the caller.
ghost use Rattle.std.specs.Prelude.{◌≡◌};
ghost use Rattle.semantics.specs.Answer.{told_of, verdict_of, tested_of, listed_of, fired_of, outcome_of, check_refusal, test_refusal, test_yes, menu_refusal, menu_bindings, menu_tries, fire_refusal, fire_length};
ghost use Rattle.answers.specs.Told.{told, run_refusal};

use semantics::refusal::Refusal;
use semantics::{Listed, Outcome};

fn tell_refusal(refusal: Refusal, position: &mut u64) -> u32
    ensures { told result position.new ≡ told_of refusal }
{
    *position = refusal.position() as u64;
    refusal.number()
}

// What check answers: the position is written.
pub fn tell_check(answer: Result<(), Refusal>, position: &mut u64) -> u32
    ensures { told result position.new ≡ check_refusal (verdict_of answer) }
{
    *position = 0;
    match answer {
        Ok(()) => 0,
        Err(refusal) => tell_refusal(refusal, position),
    }
}

// What test answers: 1 for yes and 0 for no, and the position, are written.
pub fn tell_test(answer: Result<bool, Refusal>, enabled: &mut u64, position: &mut u64) -> u32
    ensures position_after { told result position.new ≡ test_refusal (tested_of answer) }
    ensures enabled_after { enabled.new ≡ test_yes (tested_of answer) }
{
    *enabled = 0;
    *position = 0;
    match answer {
        Ok(yes) => {
            *enabled = yes as u64;
            0
        }
        Err(refusal) => tell_refusal(refusal, position),
    }
}

// What menu answers: the number of bindings, the tries and the position are written.
pub fn tell_menu(
    answer: Result<Listed, Refusal>,
    bindings: &mut u64,
    tries: &mut u64,
    position: &mut u64,
) -> u32
    ensures position_after { told result position.new ≡ menu_refusal (listed_of answer) }
    ensures bindings_after { bindings.new ≡ menu_bindings (listed_of answer) }
    ensures tries_after { tries.new ≡ menu_tries (listed_of answer) }
{
    *bindings = 0;
    *tries = 0;
    *position = 0;
    match answer {
        Ok(listed) => {
            *bindings = listed.bindings as u64;
            *tries = listed.tries as u64;
            0
        }
        Err(refusal) => tell_refusal(refusal, position),
    }
}

// What fire answers: the length of the new marking in words, and the position, are written.
pub fn tell_fire(answer: Result<usize, Refusal>, length: &mut u64, position: &mut u64) -> u32
    ensures position_after { told result position.new ≡ fire_refusal (fired_of answer) }
    ensures length_after { length.new ≡ fire_length (fired_of answer) }
{
    *length = 0;
    *position = 0;
    match answer {
        Ok(words) => {
            *length = words as u64;
            0
        }
        Err(refusal) => tell_refusal(refusal, position),
    }
}

// What run answers: the picks done, the length of the marking in words, and the position, are written.
pub fn tell_run(answer: Outcome, done: &mut u64, length: &mut u64, position: &mut u64) -> u32
    ensures position_after { told result position.new ≡ run_refusal (outcome_of answer) }
    ensures done_after { done.new ≡ answer.done }
    ensures length_after { length.new ≡ answer.length }
{
    *done = answer.done as u64;
    *length = answer.length as u64;
    *position = 0;
    match answer.stopped {
        None => 0,
        Some(refusal) => tell_refusal(refusal, position),
    }
}
