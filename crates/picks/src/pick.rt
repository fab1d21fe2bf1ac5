// One pick: the menu of its transition, the binding at its index, and the marking after it.
ghost use Rattle.net.specs.Parted.{variables_in, inputs_in, outputs_in};
ghost use Rattle.menus.specs.Menu.{IsListed};
ghost use Rattle.picks.specs.Pick.{Pickable, IsPicked, Lists, Fires, FiresRow, row, IsFiredAt};

use firing::fire::fire_enabled;
use menus::menu::list_bindings;
use patch::words::copy_words;
use semantics::Listed;
use semantics::refusal::Refusal;
use word::size::at_most;

// Fires an enabled binding into the spare, and copies the new marking back; its length is answered. The arcs of the transition stand at these positions.
fn fire_at(
    net: &[u32],
    places: &[usize],
    inputs: &[usize],
    outputs: &[usize],
    begins: &mut [usize],
    buffer: &mut [u32],
    length: usize,
    spare: &mut [u32],
    binding: &[u32],
) -> Result<usize, Refusal>
    requires { Fires net.now places.now inputs.now outputs.now begins.old buffer.old length binding.now }
    ensures { IsFiredAt net.now places.now inputs.now outputs.now begins.old buffer.old length spare.old binding.now result buffer.new begins.new }
{
    let room = at_most(buffer.len(), spare.len());
    let next = fire_enabled(
        net,
        places,
        inputs,
        outputs,
        &buffer[..length],
        begins,
        binding,
        &mut spare[..room],
    )?;
    copy_words(spare, 0, next, buffer, 0);
    Ok(next)
}

// Fires the binding that stands at an index of the menu. The parts of the transition with this word stand at these 32 positions.
fn fire_row(
    net: &[u32],
    places: &[usize],
    head: u32,
    own: &[usize],
    begins: &mut [usize],
    buffer: &mut [u32],
    length: usize,
    spare: &mut [u32],
    menu: &[u32],
    index: usize,
) -> Result<usize, Refusal>
    requires { FiresRow net.now places.now head own.now begins.old buffer.old length menu.now index }
    ensures { IsFiredAt net.now places.now (inputs_in head own.now) (outputs_in head own.now) begins.old buffer.old length spare.old (row (variables_in head) index menu.now) result buffer.new begins.new }
{
    let variables = (head % 16) as usize;
    let inputs = (head / 16 % 16) as usize;
    let outputs = (head / 256 % 16) as usize;
    let at = index * variables;
    fire_at(
        net,
        places,
        &own[..inputs],
        &own[8..8 + outputs],
        begins,
        buffer,
        length,
        spare,
        &menu[at..at + variables],
    )
}

// The menu of the transition at a position with a limit to its tries; its parts stand at these 32 positions, by its word, and the first eight of the nine
// numbers `rest` are the positions that leaves look up, as many as the last says.
fn list_menu(
    net: &[u32],
    places: &[usize],
    position: usize,
    head: u32,
    own: &[usize],
    rest: &[usize],
    marking: &[u32],
    begins: &[usize],
    limit: u32,
    menu: &mut [u32],
) -> Result<Listed, Refusal>
    requires { Lists net.now places.now position head own.now rest.now marking.now begins.now }
    ensures { IsListed net.now position marking.now limit menu.old result menu.new }
{
    let inputs = (head / 16 % 16) as usize;
    let conjuncts = (head / 4096 % 16) as usize;
    let elements = (head / 65536 % 16) as usize;
    let count = rest[8];
    list_bindings(
        net,
        places,
        position,
        (head % 16) as usize,
        &own[16..16 + conjuncts],
        &own[..inputs],
        &rest[..count],
        &own[24..24 + elements],
        marking,
        begins,
        limit,
        menu,
    )
}

// The pick w in a net whose places and transitions stand at these positions, and the parts of the transitions where the table says; which arcs leaves look
// up stands in `rests`. The marking is the first words of the buffer, and its places begin where `begins` says, before and after.
pub fn pick_once(
    net: &[u32],
    places: &[usize],
    transitions: &[usize],
    parts: &[usize],
    rests: &[usize],
    budget: u32,
    begins: &mut [usize],
    buffer: &mut [u32],
    length: usize,
    spare: &mut [u32],
    menu: &mut [u32],
    w: u32,
) -> Result<usize, Refusal>
    requires { Pickable net.now places.now transitions.now parts.now rests.now begins.old buffer.old length w }
    ensures { IsPicked net.now budget begins.old buffer.old length spare.old menu.old w result buffer.new begins.new }
{
    let number = (w / 16384 % 256) as usize;
    let index = (w % 16384) as usize;
    let position = transitions[number];
    let head = net[position];
    let from = number * 32;
    let own = &parts[from..from + 32];
    let at = number * 9;
    let listed = list_menu(
        net,
        places,
        position,
        head,
        own,
        &rests[at..at + 9],
        &buffer[..length],
        begins,
        budget,
        menu,
    )?;
    if listed.bindings as usize <= index {
        return Err(Refusal::NoSuchIndex);
    }
    fire_row(
        net, places, head, own, begins, buffer, length, spare, menu, index,
    )
}
