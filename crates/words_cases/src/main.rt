// Runs the framed classify cases on standard input and prints each classification. A frame: words lent, keyword set at
// the start, and length of the text, four bytes each, low first; then the text.
#![tactic(auto)]

use formats::{STDIN_FILENO, field_at, field_end, least, number_at, say_classified};
use text::part_of;

// The frame that `s` begins with, with no more words lent than there are.
fn run_case(s: &[u8], words: &mut [[u32; 3]]) {
    let n = least(number_at(s, 0), words.len());
    let set = number_at(s, 4) as u32;
    let r = classify::classify(field_at(s, 8), set, &mut words[0..n]);
    say_classified(r, words);
}

fn run_all(s: &[u8], words: &mut [[u32; 3]]) {
    let mut i = 0;
    while i < s.len() {
        run_case(part_of(s, i, s.len()), words);
        let e = field_end(s, i + 8);
        if e <= i {
            return;
        }
        i = e;
    }
}

fn main() {
    let mut input = [0u8; 262144];
    let mut words = [[7u32; 3]; 4096];
    let n = io::read_full(STDIN_FILENO, &mut input);
    run_all(&input[..n], &mut words);
}
