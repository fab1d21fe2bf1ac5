// The call menu: every enabled binding of a transition in a marking, once, by rising variable 0, then 1 and on.
ghost use Rattle.std.specs.Prelude.{◌≡◌};
ghost use Rattle.semantics.specs.Calls.{menu_call};
ghost use Rattle.search.specs.Search.{menu_end};
ghost use Rattle.arrivals.specs.World.{World};
ghost use Rattle.search.specs.Scene.{scene_of};
ghost use Rattle.spares.specs.Spare.{Unspared};
ghost use Rattle.menus.specs.Menu.{most_rows, IsListed};

use plan_search::plan::search_plan;
use semantics::Listed;
use semantics::refusal::Refusal;
use situations::situation::prepare;
use spares::spare::leave_out;
use word::size::at_most;

// How many rows of a width fit into a menu of so many words, at most 16,383.
fn most_rows(room: usize, width: usize) -> usize
    ensures { result ≡ most_rows room width }
{
    if width == 0 {
        return 16383;
    }
    at_most(16383, room / width)
}

// 10 where the tries pass the budget, 11 where the bindings do not fit, and then the menu is cleared; or N and W. The conjuncts, input arcs and
// elements of the transition stand at these positions. Leaves look up the arcs at the positions `tested`, which a caller makes out once for a transition.
pub fn list_bindings(
    net: &[u32],
    places: &[usize],
    position: usize,
    variables: usize,
    conjuncts: &[usize],
    inputs: &[usize],
    tested: &[usize],
    elements: &[usize],
    marking: &[u32],
    begins: &[usize],
    budget: u32,
    menu: &mut [u32],
) -> Result<Listed, Refusal>
    requires world { World net.now places.now position variables inputs.now conjuncts.now elements.now marking.now begins.now (scene_of net.now position marking.now) }
    requires unspared { Unspared net.now places.now inputs.now elements.now tested.now }
    ensures { IsListed net.now position marking.now budget menu.old result menu.new }
{
    let mut slots = [0u32; 8];
    let most = most_rows(menu.len(), variables);
    let end = search_plan(
        net,
        places,
        position,
        variables,
        conjuncts,
        inputs,
        tested,
        elements,
        marking,
        begins,
        &mut slots[..variables],
        menu,
        most,
        budget,
    );
    if end.spent {
        menu.fill(0);
        return Err(Refusal::OverBudget);
    }
    if end.full {
        menu.fill(0);
        return Err(Refusal::OverMenu);
    }
    Ok(Listed {
        bindings: end.rows as u32,
        tries: end.tries,
    })
}

// As above for one search of the transition, so the arcs that its leaves look up are made out here.
fn list_once(
    net: &[u32],
    places: &[usize],
    position: usize,
    variables: usize,
    conjuncts: &[usize],
    inputs: &[usize],
    elements: &[usize],
    marking: &[u32],
    begins: &[usize],
    budget: u32,
    menu: &mut [u32],
) -> Result<Listed, Refusal>
    requires { World net.now places.now position variables inputs.now conjuncts.now elements.now marking.now begins.now (scene_of net.now position marking.now) }
    ensures { IsListed net.now position marking.now budget menu.old result menu.new }
{
    let mut tested = [0usize; 8];
    let n = leave_out(net, places, inputs, elements, &mut tested);
    list_bindings(
        net,
        places,
        position,
        variables,
        conjuncts,
        inputs,
        &tested[..n],
        elements,
        marking,
        begins,
        budget,
        menu,
    )
}

// The first refusal of net, transition and marking, in that order; then as above.
pub fn menu(
    net: &[u32],
    transition: u32,
    marking: &[u32],
    budget: u32,
    menu: &mut [u32],
) -> Result<Listed, Refusal>
    ensures { menu_end result menu.new ≡ menu_call net.now transition marking.now budget menu.old }
{
    let mut places_at = [0usize; 64];
    let mut own = [0usize; 64];
    let mut begins = [0usize; 65];
    let s = prepare(
        net,
        transition,
        marking,
        &mut places_at,
        &mut own,
        &mut begins,
    )?;
    let t = s.transition;
    let own = &own[..];
    list_once(
        net,
        &places_at[..s.places],
        s.position,
        t.variables,
        &own[16..16 + t.conjuncts],
        &own[..t.inputs],
        &own[24..24 + t.elements],
        marking,
        &begins[..],
        budget,
        menu,
    )
}
