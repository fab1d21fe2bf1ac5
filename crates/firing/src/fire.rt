// The call fire: the marking after a step, written to a second buffer, or the refusal; a refusal leaves the buffer as it was.
ghost use Rattle.std.specs.Prelude.{◌≡◌, ◌≤◌, length};
ghost use Rattle.semantics.specs.Calls.{fire_call};
ghost use Rattle.net.specs.Places.{PlacesFit};
ghost use Rattle.steps.specs.Steps.{fire_end};
ghost use Rattle.firing.specs.Fire.{FireableAt, IsFiredAt, EnabledAt, IsFiredEnabled, TakenAt, IsFiredTaken};

use gathering::gather::gather;
use marking::binding::read_binding;
use occurrence::enabled::taken;
use semantics::refusal::Refusal;
use situations::situation::prepare;
use steps::step::fire_keys;

// 14, 15 and 16 in that order, or the new marking is written. The first n keys and amounts are what an enabled binding takes.
fn fire_taken(
    net: &[u32],
    places: &[usize],
    outputs: &[usize],
    in_keys: &[u64],
    in_amounts: &[u32],
    n: usize,
    marking: &[u32],
    begins: &mut [usize],
    binding: &[u32],
    next: &mut [u32],
) -> Result<usize, Refusal>
    requires places_fit { PlacesFit net.now places.now }
    requires begins_len { length begins.old ≡ 65 }
    requires outputs_len_bound { length outputs.now ≤ 8 }
    requires taken_at { TakenAt net.now places.now outputs.now marking.now begins.old binding.now in_keys.now in_amounts.now n }
    ensures { IsFiredTaken net.now places.now outputs.now marking.now begins.old binding.now in_keys.now in_amounts.now n next.old result next.new begins.new }
{
    let mut out_keys = [0u64; 8];
    let mut out_amounts = [0u32; 8];
    let outs = gather(
        net,
        places,
        binding,
        outputs,
        0,
        0,
        &mut out_keys,
        &mut out_amounts,
    );
    if !outs.some {
        return Err(Refusal::BadOutput);
    }
    let m = outs.n;
    fire_keys(
        net,
        places,
        &in_keys[..n],
        &in_amounts[..n],
        &out_keys[..m],
        &out_amounts[..m],
        marking,
        begins,
        next,
    )
}

// 13, 14, 15 and 16 in that order, or the new marking is written. The conjuncts and arcs of the transition stand at these positions.
fn fire_arcs(
    net: &[u32],
    places: &[usize],
    conjuncts: &[usize],
    inputs: &[usize],
    outputs: &[usize],
    marking: &[u32],
    begins: &mut [usize],
    binding: &[u32],
    next: &mut [u32],
) -> Result<usize, Refusal>
    requires places_fit { PlacesFit net.now places.now }
    requires begins_len { length begins.old ≡ 65 }
    requires inputs_len_bound { (length inputs.now ≤ 8) × (length outputs.now ≤ 8) }
    requires fireable_at { FireableAt net.now places.now conjuncts.now inputs.now outputs.now marking.now begins.old binding.now }
    ensures { IsFiredAt net.now places.now conjuncts.now inputs.now outputs.now marking.now begins.old binding.now next.old result next.new begins.new }
{
    let mut keys = [0u64; 8];
    let mut amounts = [0u32; 8];
    let ins = taken(
        net,
        places,
        conjuncts,
        inputs,
        marking,
        begins,
        binding,
        &mut keys,
        &mut amounts,
    );
    if !ins.some {
        return Err(Refusal::NotEnabled);
    }
    fire_taken(
        net,
        places,
        outputs,
        &keys[..],
        &amounts[..],
        ins.n,
        marking,
        begins,
        binding,
        next,
    )
}

// The same of a binding that is known to be enabled: guard and cover are not tested again.
pub fn fire_enabled(
    net: &[u32],
    places: &[usize],
    inputs: &[usize],
    outputs: &[usize],
    marking: &[u32],
    begins: &mut [usize],
    binding: &[u32],
    next: &mut [u32],
) -> Result<usize, Refusal>
    requires places_fit { PlacesFit net.now places.now }
    requires begins_len { length begins.old ≡ 65 }
    requires inputs_len_bound { (length inputs.now ≤ 8) × (length outputs.now ≤ 8) }
    requires enabled_at { EnabledAt net.now places.now inputs.now outputs.now marking.now begins.old binding.now }
    ensures { IsFiredEnabled net.now places.now inputs.now outputs.now marking.now begins.old binding.now next.old result next.new begins.new }
{
    let mut keys = [0u64; 8];
    let mut amounts = [0u32; 8];
    let ins = gather(net, places, binding, inputs, 0, 0, &mut keys, &mut amounts);
    fire_taken(
        net,
        places,
        outputs,
        &keys[..],
        &amounts[..],
        ins.n,
        marking,
        begins,
        binding,
        next,
    )
}

// The first refusal of net, transition, marking and binding, in that order; then as above.
pub fn fire(
    net: &[u32],
    transition: u32,
    marking: &[u32],
    binding: &[u32],
    next: &mut [u32],
) -> Result<usize, Refusal>
    ensures { fire_end result next.new ≡ fire_call net.now transition marking.now binding.now next.old }
{
    let mut places_at = [0usize; 64];
    let mut own = [0usize; 64];
    let mut begins = [0usize; 65];
    let s = prepare(
        net,
        transition,
        marking,
        &mut places_at,
        &mut own,
        &mut begins,
    )?;
    let t = s.transition;
    read_binding(net, s.position + 1, t.variables, binding)?;
    let own = &own[..];
    fire_arcs(
        net,
        &places_at[..s.places],
        &own[16..16 + t.conjuncts],
        &own[..t.inputs],
        &own[8..8 + t.outputs],
        marking,
        &mut begins,
        binding,
        next,
    )
}
