// The search: from a partial binding over the rest of the plan, each try counted against the budget.
ghost use Rattle.std.specs.Prelude.{◌≡◌, ◌<◌, length, get_or, drop};
ghost use Rattle.semantics.specs.Word.{payload, bits};
ghost use Rattle.semantics.specs.ReadNet.{sort_of};
ghost use Rattle.semantics.proofs.Leaves.{Sound};
ghost use Rattle.elements.specs.Bound.{sorted};
ghost use Rattle.rows.specs.Rows.{listing_of};
ghost use Rattle.tries.specs.Partial.{partial_of};
ghost use Rattle.arrivals.specs.World.{World};
ghost use Rattle.search.specs.Scene.{scene_of};
ghost use Rattle.search.specs.Search.{cost_from, rows_from, Settling};
ghost use Rattle.leaves.specs.Leaf.{Held, Unspent, Ended};

use arrivals::step::{arrive, try_at};
use elements::element::{Element, element_of};
use gathering::gather::gather_behind;
use leaves::leaf::leaf;
use leaves::progress::Progress;
use tries::partial::{restore, save};
use word::fields::payload;

// The element at a position.
fn element_at(net: &[u32], at: usize) -> Element
    requires { at < length net.now }
    ensures { sorted result.sort ≡ sort_of (bits 8 9 (payload (get_or net.now at 0))) (bits 0 7 (payload (get_or net.now at 0))) }
{
    element_of(payload(net[at]))
}

// Walks the plan from the element `depth` on. A try writes the slots; what they held on arrival is put back after it, so they are left as they were.
// A try of the last element that goes on is a leaf at once, which looks up the arcs that the plan does not settle. What the first of them take, as far as
// the slots tell it on arrival, is gathered once for all tries.
pub fn walk(
    net: &[u32],
    places: &[usize],
    position: usize,
    variables: usize,
    conjuncts: &[usize],
    inputs: &[usize],
    tested: &[usize],
    elements: &[usize],
    marking: &[u32],
    begins: &[usize],
    depth: usize,
    slots: &mut [u32],
    menu: &mut [u32],
    most: usize,
    budget: u32,
    s: Progress,
) -> Progress
    requires world { World net.now places.now position variables inputs.now conjuncts.now elements.now marking.now begins.now (scene_of net.now position marking.now) }
    requires depth_in_bounds { (depth < length elements.now) × (length slots.old ≡ variables) }
    requires sound { Sound (scene_of net.now position marking.now).transition (drop depth (scene_of net.now position marking.now).transition.plan) (partial_of variables slots.old) }
    requires settling { Settling (scene_of net.now position marking.now) inputs.now tested.now (drop depth (scene_of net.now position marking.now).transition.plan) (partial_of variables slots.old) }
    requires held { Held variables most s.rows menu.old }
    requires unspent { Unspent budget s }
    ensures ended { Ended variables most budget s.rows menu.old s.tries (listing_of variables s.rows s.full menu.old) (cost_from (scene_of net.now position marking.now) (drop depth (scene_of net.now position marking.now).transition.plan) (partial_of variables slots.old)) (rows_from (scene_of net.now position marking.now) (drop depth (scene_of net.now position marking.now).transition.plan) (partial_of variables slots.old)) result menu.new }
    ensures slots_unchanged { slots.new ≡ slots.old }
{
    let mut parts = [0u32; 4];
    let mut known = [0u32; 4];
    let step = arrive(
        net,
        places,
        position,
        variables,
        inputs,
        conjuncts,
        marking,
        begins,
        element_at(net, elements[depth]),
        slots,
        &mut parts,
        &mut known,
    );
    let mut keys = [0u64; 8];
    let mut amounts = [0u32; 8];
    let first = gather_behind(net, places, slots, tested, 0, 0, &mut keys, &mut amounts);
    let mut saved = [0u32; 8];
    save(slots, &mut saved);
    let mut cur = s;
    for i in 0..step.count {
        let t = cur.tries;
        if budget <= t {
            cur.spent = true;
            return cur;
        }
        cur.tries = t + 1;
        if try_at(
            net,
            position + 1,
            variables,
            marking,
            step,
            &parts,
            &known,
            slots,
            &saved,
            i,
        ) {
            if depth + 1 == elements.len() {
                let one = leaf(
                    net,
                    places,
                    conjuncts,
                    tested,
                    marking,
                    begins,
                    slots,
                    first.arcs,
                    first.n,
                    &mut keys,
                    &mut amounts,
                    menu,
                    most,
                    cur.rows,
                    cur.full,
                );
                cur.rows = one.rows;
                cur.full = one.full;
            } else {
                cur = walk(
                    net,
                    places,
                    position,
                    variables,
                    conjuncts,
                    inputs,
                    tested,
                    elements,
                    marking,
                    begins,
                    depth + 1,
                    slots,
                    menu,
                    most,
                    budget,
                    cur,
                );
            }
            restore(slots, &saved);
            if cur.spent {
                return cur;
            }
        }
    }
    cur
}
