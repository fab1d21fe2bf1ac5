// Parts of the printed text: one for each transition, or one for input that is refused.
ghost use Rattle.std.specs.Prelude.{◌≡◌, ◌∷◌, [], suc, min, ◌≤◌, ltb, length, take};
ghost use Rattle.std.proofs.lemmas.List.Edits.{sets};
ghost use Rattle.semantics.specs.Plan.{accept_front};
ghost use Rattle.semantics.specs.Print.{bad_input};
ghost use Rattle.printed.specs.Texts.{net_texts, part_text, parts};
ghost use Rattle.printed.specs.Part.{IsPart, Accepts, IsNetPart};

use accept::split::split;
use offers::menu::put_menu;
use situations::situation::prepare;
use text_lines::line::put_bad_input;
use word::bytes::words_of_bytes;

// How many bytes of the buffer a part takes, and whether another part follows.
// No Option, since both are told of every part.
#[derive(Clone, Copy)]
pub struct Part {
    pub written: usize,
    pub more: bool,
}

// Part i for input that is refused: the first one is its line, and there is no other.
fn refusal_part(out: &mut [u8], i: usize, number: usize, position: usize) -> Part
    ensures { IsPart (bad_input number position ∷ []) i out.old result out.new }
{
    if i == 0 {
        return Part {
            written: put_bad_input(out, 0, number, position),
            more: false,
        };
    }
    Part {
        written: 0,
        more: false,
    }
}

// Part i for an accepted net and the words of a marking: the menu of the transition i.
fn net_part(out: &mut [u8], i: usize, net: &[u32], marking: &[u32]) -> Part
    requires { Accepts net.now }
    ensures { IsNetPart net.now marking.now i out.old result out.new }
{
    let transitions = (net[0] % 256) as usize;
    if transitions <= i {
        return Part {
            written: 0,
            more: false,
        };
    }
    let mut places_at = [0usize; 64];
    let mut own = [0usize; 64];
    let mut begins = [0usize; 65];
    let prepared = prepare(
        net,
        i as u32,
        marking,
        &mut places_at,
        &mut own,
        &mut begins,
    );
    match prepared {
        Err(refusal) => refusal_part(out, i, refusal.number() as usize, refusal.position()),
        Ok(s) => Part {
            written: put_menu(out, net, i as u32, marking, s.transition.variables),
            more: i + 1 < transitions,
        },
    }
}

// Part i for words: a net, and after it a marking, which is read from the part of the words that split hands back.
fn words_part(out: &mut [u8], i: usize, words: &[u32]) -> Part
    ensures { IsPart (net_texts words.now (accept_front words.now)) i out.old result out.new }
{
    let mut number = 0u32;
    let mut position = 0usize;
    let marking = split(words, &mut number, &mut position);
    if number != 0 {
        return refusal_part(out, i, number as usize, position);
    }
    let end = words.len() - marking.len();
    net_part(out, i, &words[..end], marking)
}

// Writes part i of the text for bytes to the front of a buffer, as much of it as finds room.
pub fn print_part(bytes: &[u8], i: usize, out: &mut [u8]) -> Part
    ensures out_after { out.new ≡ sets out.old 0 (part_text bytes.now i) }
    ensures written_value { result.written ≡ min (length (part_text bytes.now i)) (length out.old) }
    ensures more_value { result.more ≡ ltb (suc i) (parts bytes.now) }
{
    if 65536 < bytes.len() {
        return refusal_part(out, i, 1, 16384);
    }
    if bytes.len() % 4 != 0 {
        return refusal_part(out, i, 2, bytes.len() / 4);
    }
    let mut words = [0u32; 16384];
    let n = words_of_bytes(bytes, &mut words);
    words_part(out, i, &words[..n])
}

// The same in a buffer with room for every part: the whole part is written.
pub fn whole_part(bytes: &[u8], i: usize, out: &mut [u8]) -> Part
    requires { 24640 ≤ length out.old }
    ensures out_after { take result.written out.new ≡ part_text bytes.now i }
    ensures written_bound { result.written ≤ 24640 }
    ensures more_value { result.more ≡ ltb (suc i) (parts bytes.now) }
{
    print_part(bytes, i, out)
}
