// The whole outcome of the files on standard input, in the printing program's form, up to 200,000 bytes. Arguments: the
// lengths lent for text, map, records, macro bytes and words; the replacement limit; the starting keyword set; the root.
#![tactic(auto)]

use formats::{STDERR_FILENO, STDIN_FILENO, least, read_argument};
use options::number_of;
use std::rt::Env;

fn complain(i: usize, most: usize) {
    io::write_all(STDERR_FILENO, b"dump: argument ");
    io::print_decimal(STDERR_FILENO, i as u64);
    io::write_all(STDERR_FILENO, b" is no number up to ");
    io::print_decimal(STDERR_FILENO, most as u64);
    io::write_all(STDERR_FILENO, b"\n");
}

// Argument `i`; none, with a message, where it is no number up to `most`.
fn argument(rt: &impl Env, i: usize, most: usize) -> Option<usize> {
    let mut word = [0u8; 16];
    let n = read_argument(rt, i, &mut word);
    let x = number_of(&word[..n]).filter(|x| *x <= most);
    if x.is_none() {
        complain(i, most);
    }
    x
}

// Dumps the outcome for the limit, the keyword set and the root of the arguments.
fn dump_lent(
    rt: &impl Env,
    s: &[u8],
    text: &mut [u8],
    map: &mut [u32],
    records: &mut [[u32; 4]],
    bytes: &mut [u8],
    words: &mut [[u32; 3]],
) {
    let limit = argument(rt, 6, 3999999999);
    let set = argument(rt, 7, 3999999999);
    let root = argument(rt, 8, 3999999999);
    let (Some(limit), Some(set), Some(root)) = (limit, set, root) else {
        return;
    };
    let set = u32::try_from(set).unwrap_or(u32::MAX);
    outcome::dump_input(s, root, set, limit, text, map, records, bytes, words);
}

// Lends as much of the buffers as the arguments say.
fn run(
    rt: &impl Env,
    s: &[u8],
    text: &mut [u8],
    map: &mut [u32],
    records: &mut [[u32; 4]],
    bytes: &mut [u8],
    words: &mut [[u32; 3]],
) {
    let a = argument(rt, 1, text.len());
    let b = argument(rt, 2, map.len());
    let c = argument(rt, 3, records.len());
    let d = argument(rt, 4, bytes.len());
    let e = argument(rt, 5, words.len());
    let (Some(a), Some(b), Some(c), Some(d), Some(e)) = (a, b, c, d, e) else {
        return;
    };
    let a = least(a, text.len());
    let b = least(b, map.len());
    let c = least(c, records.len());
    let d = least(d, bytes.len());
    let e = least(e, words.len());
    dump_lent(
        rt,
        s,
        &mut text[0..a],
        &mut map[0..b],
        &mut records[0..c],
        &mut bytes[0..d],
        &mut words[0..e],
    );
}

// The input is one byte longer than is taken, so that a longer one shows.
fn main(rt: HostRuntime) {
    let mut input = [0u8; 200001];
    let n = io::read_full(STDIN_FILENO, &mut input);
    if 200000 < n {
        io::write_all(STDERR_FILENO, b"dump: the input is over 200,000 bytes\n");
        return;
    }
    let mut text = [0u8; 262144];
    let mut map = [0u32; 65536];
    let mut records = [[0u32; 4]; 4096];
    let mut bytes = [0u8; 70000];
    let mut words = [[0u32; 3]; 65536];
    run(
        &rt,
        &input[..n],
        &mut text,
        &mut map,
        &mut records,
        &mut bytes,
        &mut words,
    );
}
