// The printing program (document 01): the flat text, its map and its words of the files on standard input.
#![tactic(auto)]

use formats::STDIN_FILENO;

// The input is one byte longer than is taken, so that a longer one shows.
fn main() {
    let mut input = [0u8; 60001];
    let mut text = [0u8; 4096];
    let mut map = [0u32; 4096];
    let mut records = [[0u32; 4]; 4096];
    let mut bytes = [0u8; 4096];
    let mut words = [[0u32; 3]; 4096];
    let n = io::read_full(STDIN_FILENO, &mut input);
    outcome::print_input(
        &input[..n],
        &mut text,
        &mut map,
        &mut records,
        &mut bytes,
        &mut words,
    );
}
