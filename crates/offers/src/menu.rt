// The text of a transition's menu.
ghost use Rattle.offers.specs.Offers.{Ready, IsMenuText};

use crate::lines::put_rows;
use text_lines::line::{put_numbers, put_withheld};

// The transition's number, N and W and the bindings, or the number of the menu's refusal.
pub fn put_menu(
    out: &mut [u8],
    net: &[u32],
    transition: u32,
    marking: &[u32],
    width: usize,
) -> usize
    requires { Ready net.now transition marking.now width }
    ensures { IsMenuText net.now transition marking.now out.old result out.new }
{
    let mut menu = [0u32; 4096];
    let number = transition as usize;
    match menus::menu::menu(net, transition, marking, 1000000, &mut menu) {
        Ok(listed) => {
            let n = listed.bindings as usize;
            let next = put_numbers(out, 0, number, n, listed.tries as usize);
            put_rows(out, next, &menu, width, n)
        }
        Err(e) => put_withheld(out, 0, number, e.number() as usize),
    }
}
