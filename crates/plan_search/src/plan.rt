// The search over a whole plan, from a menu without rows.
ghost use Rattle.std.specs.Prelude.{false, ◌≡◌, length};
ghost use Rattle.semantics.proofs.Leaves.{Sound};
ghost use Rattle.rows.specs.Rows.{listing_of};
ghost use Rattle.tries.specs.Partial.{partial_of};
ghost use Rattle.arrivals.specs.World.{World};
ghost use Rattle.search.specs.Scene.{scene_of};
ghost use Rattle.search.specs.Search.{cost_from, rows_from};
ghost use Rattle.spares.specs.Spare.{Unspared};
ghost use Rattle.leaves.specs.Leaf.{Held, Ended};

use leaves::leaf::only_leaf;
use leaves::progress::Progress;
use search::walk::walk;

// Leaves look up the arcs at the positions `tested`, since the plan settles the others. A plan without elements, which a transition without variables has,
// is one leaf that looks up all; `walk` takes the others, so that it has one place for leaves alone, where they go into its loop.
pub fn search_plan(
    net: &[u32],
    places: &[usize],
    position: usize,
    variables: usize,
    conjuncts: &[usize],
    inputs: &[usize],
    tested: &[usize],
    elements: &[usize],
    marking: &[u32],
    begins: &[usize],
    slots: &mut [u32],
    menu: &mut [u32],
    most: usize,
    budget: u32,
) -> Progress
    requires world { World net.now places.now position variables inputs.now conjuncts.now elements.now marking.now begins.now (scene_of net.now position marking.now) }
    requires slots_len { length slots.old ≡ variables }
    requires sound { Sound (scene_of net.now position marking.now).transition (scene_of net.now position marking.now).transition.plan (partial_of variables slots.old) }
    requires unspared { Unspared net.now places.now inputs.now elements.now tested.now }
    requires held { Held variables most 0 menu.old }
    ensures { Ended variables most budget 0 menu.old 0 (listing_of variables 0 false menu.old) (cost_from (scene_of net.now position marking.now) (scene_of net.now position marking.now).transition.plan (partial_of variables slots.old)) (rows_from (scene_of net.now position marking.now) (scene_of net.now position marking.now).transition.plan (partial_of variables slots.old)) result menu.new }
{
    if elements.len() == 0 {
        let one = only_leaf(
            net, places, conjuncts, inputs, marking, begins, slots, menu, most, 0,
        );
        return Progress {
            tries: 0,
            rows: one.rows,
            spent: false,
            full: one.full,
        };
    }
    walk(
        net,
        places,
        position,
        variables,
        conjuncts,
        inputs,
        tested,
        elements,
        marking,
        begins,
        0,
        slots,
        menu,
        most,
        budget,
        Progress {
            tries: 0,
            rows: 0,
            spent: false,
            full: false,
        },
    )
}
