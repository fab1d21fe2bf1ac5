// Menu, with the answer told in lent numbers.
ghost use Rattle.std.specs.Prelude.{◌≡◌};
ghost use Rattle.semantics.specs.Answer.{menu_refusal, menu_bindings, menu_tries};
ghost use Rattle.semantics.specs.Calls.{menu_call};
ghost use Rattle.answers.specs.Told.{told};

use answers::tell::tell_menu;

// Menu: the refusal's number, 0 where the bindings are listed; written are their words to the front of `menu`, how many they are and the tries of the
// plan, 0 and 0 where it is refused, and the position, 0 where there is none.
pub fn gimletlemon_menu(
    net: &[u32],
    transition: u32,
    marking: &[u32],
    budget: u32,
    menu: &mut [u32],
    bindings: &mut u64,
    tries: &mut u64,
    position: &mut u64,
) -> u32
    ensures position_after { told result position.new ≡ menu_refusal (menu_call net.now transition marking.now budget menu.old).answer }
    ensures bindings_after { bindings.new ≡ menu_bindings (menu_call net.now transition marking.now budget menu.old).answer }
    ensures tries_after { tries.new ≡ menu_tries (menu_call net.now transition marking.now budget menu.old).answer }
    ensures menu_after { menu.new ≡ (menu_call net.now transition marking.now budget menu.old).buffer }
{
    tell_menu(
        menus::menu::menu(net, transition, marking, budget, menu),
        bindings,
        tries,
        position,
    )
}
