// Reads a net and a marking from standard input and prints the menu of each transition (document 01, "The printed menu"). Input of more than
// 65,536 bytes is refused by its length, so that the first 65,537 bytes are enough.
#![tactic(auto)]

fn main() {
    let mut input = [0u8; 65537];
    let n = io::read_full(0, &mut input);
    printing::write_printed(&input[..n]);
}
