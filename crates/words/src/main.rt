// The reserved words of the text on standard input. Arguments: the words lent, up to 65,536, and the keyword set at the
// start, 0 to 3.
#![tactic(auto)]

use formats::{STDERR_FILENO, STDIN_FILENO, read_argument, say_classified};
use options::number_of;
use std::rt::Env;

// Argument `i`, or 4,294,967,295, which is neither a number of words nor a keyword set, where it is no number.
fn argument(rt: &impl Env, i: usize) -> u32 {
    let mut word = [0u8; 16];
    let n = read_argument(rt, i, &mut word);
    match number_of(&word[..n]) {
        Some(x) => u32::try_from(x).unwrap_or(u32::MAX),
        None => u32::MAX,
    }
}

fn list(text: &[u8], words: &mut [[u32; 3]], set: u32) {
    let r = classify::classify(text, set, words);
    say_classified(r, words);
}

fn run(text: &[u8], lent: usize, set: u32) {
    let mut words = [[0u32; 3]; 65536];
    if words.len() < lent {
        io::write_all(STDERR_FILENO, b"words: at most 65536 words are lent\n");
        return;
    }
    list(text, &mut words[0..lent], set);
}

// Reads the text into `text`, which has room for one byte more than is taken.
fn read_and_run(rt: &impl Env, text: &mut [u8]) {
    let n = io::read_full(STDIN_FILENO, text);
    if text.len() <= n {
        io::write_all(STDERR_FILENO, b"words: the text is over 1,048,576 bytes\n");
        return;
    }
    run(&text[0..n], argument(rt, 1) as usize, argument(rt, 2));
}

fn main(rt: HostRuntime) {
    let mut text = [0u8; 1048577];
    read_and_run(&rt, &mut text);
}
