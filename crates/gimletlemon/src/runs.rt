// Run, with the answer told in lent numbers.
ghost use Rattle.std.specs.Prelude.{◌≡◌};
ghost use Rattle.semantics.specs.Calls.{run_call};
ghost use Rattle.answers.specs.Told.{told, run_refusal};

use answers::tell::tell_run;

// Run: the number of the refusal that ended it, 0 where all picks were fired; written are the picks done, the length of the marking then at the front
// of the buffer, 0 where the input is refused, and the position, 0 where there is none.
pub fn gimletlemon_run(
    net: &[u32],
    budget: u32,
    buffer: &mut [u32],
    m: usize,
    spare: &mut [u32],
    menu: &mut [u32],
    picks: &[u32],
    done: &mut u64,
    length: &mut u64,
    position: &mut u64,
) -> u32
    ensures position_after { told result position.new ≡ run_refusal (run_call net.now budget buffer.old m spare.old menu.old picks.now).answer }
    ensures done_after { done.new ≡ (run_call net.now budget buffer.old m spare.old menu.old picks.now).answer.done }
    ensures length_after { length.new ≡ (run_call net.now budget buffer.old m spare.old menu.old picks.now).answer.length }
    ensures buffer_after { buffer.new ≡ (run_call net.now budget buffer.old m spare.old menu.old picks.now).buffer }
    ensures spare_after { spare.new ≡ (run_call net.now budget buffer.old m spare.old menu.old picks.now).spare }
    ensures menu_after { menu.new ≡ (run_call net.now budget buffer.old m spare.old menu.old picks.now).menu }
{
    tell_run(
        run::run::run(net, budget, buffer, m, spare, menu, picks),
        done,
        length,
        position,
    )
}
