// Flattens the framed hand-overs on standard input and prints what comes of each. First stands the number of frames. A frame: 0
// to dump the whole outcome, 1 to print as the printing program does, with limit, set and root of its own; the lengths lent for
// text, map, records, macro bytes and words; the replacement limit; the starting keyword set; the root; the length of the
// input, in the printing program's form; then the input. A number is four bytes, low first.
#![tactic(auto)]

use formats::{STDIN_FILENO, least, number_at, say};
use outcome::{dump_input, print_input};

// Prints or dumps what comes of the input `s`, by the frame's numbers.
fn run_lent(
    head: &[u8],
    s: &[u8],
    text: &mut [u8],
    map: &mut [u32],
    records: &mut [[u32; 4]],
    bytes: &mut [u8],
    words: &mut [[u32; 3]],
) {
    if number_at(head, 0) == 1 {
        print_input(s, text, map, records, bytes, words);
        return;
    }
    let limit = number_at(head, 24);
    let set = number_at(head, 28) as u32;
    let root = number_at(head, 32);
    dump_input(s, root, set, limit, text, map, records, bytes, words);
}

// Reads the frame's input, as far as there is room for it, and lends as much of the buffers as the frame's numbers say, and no
// more than there is.
fn run_case(
    head: &[u8],
    input: &mut [u8],
    text: &mut [u8],
    map: &mut [u32],
    records: &mut [[u32; 4]],
    bytes: &mut [u8],
    words: &mut [[u32; 3]],
) {
    let a = least(number_at(head, 4), text.len());
    let b = least(number_at(head, 8), map.len());
    let c = least(number_at(head, 12), records.len());
    let d = least(number_at(head, 16), bytes.len());
    let e = least(number_at(head, 20), words.len());
    let n = least(number_at(head, 36), input.len());
    io::read_full(STDIN_FILENO, &mut input[0..n]);
    run_lent(
        head,
        &input[0..n],
        &mut text[0..a],
        &mut map[0..b],
        &mut records[0..c],
        &mut bytes[0..d],
        &mut words[0..e],
    );
}

// The frame with these numbers, in buffers that are not zero at the start.
fn run_frame(head: &[u8]) {
    let mut input = [0u8; 131072];
    let mut text = [170u8; 262144];
    let mut map = [7u32; 65536];
    let mut records = [[7u32; 4]; 4096];
    let mut bytes = [170u8; 70000];
    let mut words = [[7u32; 3]; 65536];
    run_case(
        head,
        &mut input,
        &mut text,
        &mut map,
        &mut records,
        &mut bytes,
        &mut words,
    );
}

// Runs the next frame; whether there was one.
fn run_next() -> bool {
    let mut head = [0u8; 40];
    if io::read_full(STDIN_FILENO, &mut head) < 40 {
        say(b"a frame is cut short\n");
        return false;
    }
    run_frame(&head);
    true
}

fn main() {
    let mut four = [0u8; 4];
    io::read_full(STDIN_FILENO, &mut four);
    for _ in 0..number_at(&four, 0) {
        if !run_next() {
            return;
        }
    }
}
