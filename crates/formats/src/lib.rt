// What programs print and read: numbers, bytes in hexadecimal, rows of numbers, a classification, what pass answers; fields of a
// script.
#![tactic(auto)]

ghost use Rattle.std.specs.Prelude.{◌<◌, ◌≤◌, length};

use classify::Classified;
use pass::Answer;
use std::rt::Env;
use text::{part_of, peek};

// The file descriptors that a program is started with.
pub const STDIN_FILENO: i32 = 0;

pub const STDOUT_FILENO: i32 = 1;

pub const STDERR_FILENO: i32 = 2;

pub fn least(a: usize, b: usize) -> usize
    ensures { (result ≤ a) × (result ≤ b) }
{
    a.min(b)
}

pub fn say(w: &[u8]) {
    io::write_all(STDOUT_FILENO, w);
}

// A space and the number.
pub fn say_number(n: usize) {
    say(b" ");
    io::print_decimal(STDOUT_FILENO, n as u64);
}

// A line of a word and a number.
pub fn say_count(word: &[u8], n: usize) {
    say(word);
    say_number(n);
    say(b"\n");
}

// A line of a word, a refusal and its place.
pub fn say_refusal(word: &[u8], number: usize, file: usize, line: usize, byte: usize) {
    say(word);
    say_number(number);
    say_number(file);
    say_number(line);
    say_number(byte);
    say(b"\n");
}

fn hex_digit(n: u8) -> u8 {
    if n < 10 { 48 + n } else { 87 + n % 16 }
}

// At most 256 bytes in hexadecimal.
fn say_digits(w: &[u8]) {
    let mut digits = [0u8; 512];
    for (i, &b) in w.iter().take(256).enumerate() {
        digits[2 * i] = hex_digit(b / 16);
        digits[2 * i + 1] = hex_digit(b % 16);
    }
    say(&digits[..2 * w.len().min(256)]);
}

// Bytes in hexadecimal.
pub fn say_hex(w: &[u8]) {
    for part in w.chunks(256) {
        say_digits(part);
    }
}

// Bytes in hexadecimal behind a word, a hyphen for none.
pub fn say_bytes(word: &[u8], w: &[u8]) {
    say(word);
    if w.len() == 0 {
        say(b" -\n");
        return;
    }
    say(b" ");
    say_hex(w);
    say(b"\n");
}

fn say_record(v: [u32; 4]) {
    say(b"rec");
    say_number(v[0] as usize);
    say_number(v[1] as usize);
    say_number(v[2] as usize);
    say_number(v[3] as usize);
    say(b"\n");
}

// A line for each of the first `n` records.
pub fn say_records(records: &[[u32; 4]], n: usize) {
    for &v in records.iter().take(n) {
        say_record(v);
    }
}

fn say_word(mark: &[u8], w: [u32; 3]) {
    say(mark);
    io::print_decimal(STDOUT_FILENO, w[0] as u64);
    say_number(w[1] as usize);
    say_number(w[2] as usize);
    say(b"\n");
}

// The number of words, and a line for each of them behind the mark: offset, length, 1 if reserved.
pub fn say_words(mark: &[u8], words: &[[u32; 3]], n: usize) {
    say_count(b"words", n);
    for &w in words.iter().take(n) {
        say_word(mark, w);
    }
}

// Classify's answer and the words.
pub fn say_classified(r: Classified, words: &[[u32; 3]]) {
    if r.number == 0 {
        say(b"classify ok\n");
    } else {
        say_refusal(b"classify refused", r.number, 0, r.line, r.byte);
    }
    say_words(b"w ", words, r.words);
}

// What pass answers on these records and bytes: yes, or a refusal and the macro's name.
pub fn say_pass(records: &[[u32; 4]], bytes: &[u8]) {
    let a = pass::pass(bytes, records);
    match a {
        Answer::Yes => say(b"pass yes\n"),
        Answer::Fault(i, n) => {
            say(b"pass");
            say_number(n);
            let q = packed::read(records, i);
            say_bytes(b"", part_of(bytes, q.start, q.start + q.name));
        }
        Answer::Foreign => say(b"pass 1\n"),
    }
}

fn four_of(w: &[u8]) -> usize
    ensures { result < 4294967296 }
{
    usize::from(peek(w, 0))
        + usize::from(peek(w, 1)) * 256
        + usize::from(peek(w, 2)) * 65536
        + usize::from(peek(w, 3)) * 16777216
}

// Puts argument `i` at the start of `word`; its length, or 0 where it is missing or longer.
pub fn read_argument(rt: &impl Env, i: usize, word: &mut [u8]) -> usize
    ensures { result ≤ length word.new }
{
    match rt.arg(i, word) {
        Ok(n) => n,
        Err(_) => 0,
    }
}

// The number at `at`: four bytes, low first, those past the end 0.
pub fn number_at(s: &[u8], at: usize) -> usize
    ensures { result < 4294967296 }
{
    four_of(part_of(s, at, s.len()))
}

// The bytes behind the number at `at`, so many as it says, as far as there are any.
pub fn field_at(s: &[u8], at: usize) -> &[u8] {
    let w = part_of(s, at, s.len());
    part_of(w, 4, 4 + four_of(w))
}

// The end of that field, at most the end of the script.
pub fn field_end(s: &[u8], at: usize) -> usize
    ensures { result ≤ length s.now }
{
    let n = 4 + number_at(s, at);
    if s.len() <= at {
        return s.len();
    }
    least(at + n, s.len())
}
