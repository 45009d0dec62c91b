// What the technician's command says of refusals: their place, the source line, what each number means.
#![tactic(auto)]

ghost use Rattle.messages.specs.declared.Failure.{Failure};
ghost use Rattle.std.specs.Prelude.{◌≤◌, ◌≡◌};

use std::alloc::{AllocError, AllocFailed};
use text::part_of;

// Why a run does not go on.
#[derive(Clone, Copy, PartialEq, Eq)]
pub enum Failure {
    // a message was written
    Told,
    // an output turned out to be a file that is read; a message was written
    Clash,
    // the reader of an output went away
    Gone,
    // there is no memory left
    Memory,
}

impl From<AllocError> for Failure {
    ghost from_gives = { λ _ failure. failure ≡ Failure.Memory };

    fn from(_error: AllocError) -> Failure {
        Failure::Memory
    }
}

impl<T: Drop> From<AllocFailed<T>> for Failure {
    ghost from_gives = { λ _ failure. failure ≡ Failure.Memory };

    fn from(_error: AllocFailed<T>) -> Failure {
        Failure::Memory
    }
}

// The descriptors of standard input, standard output and standard error.
pub const STDIN_FILENO: i32 = 0;

pub const STDOUT_FILENO: i32 = 1;

pub const STDERR_FILENO: i32 = 2;

// The descriptor on which the wrapper `bin/arborstitch` listens: new files, each as `+PATH` on a line, then a digit.
pub const WRAPPER: i32 = 3;

pub fn say(w: &[u8]) {
    io::write_all(STDERR_FILENO, w);
}

pub fn say_number(n: usize) {
    io::print_decimal(STDERR_FILENO, n as u64);
}

pub fn first_line(w: &[u8]) -> &[u8] {
    part_of(w, 0, line_end(w, 0))
}

// `arborstitch: WHAT: WHY`; of WHAT its first line.
pub fn complain(what: &[u8], why: &[u8]) {
    say(b"arborstitch: ");
    say(first_line(what));
    say(b": ");
    say(why);
    say(b"\n");
}

// The first byte of the line that has byte `at`, or of the last line.
fn line_start(s: &[u8], at: usize) -> usize {
    match part_of(s, 0, at).iter().rposition(|b| *b == b'\n') {
        Some(newline) => newline + 1,
        None => 0,
    }
}

// The end of the line from `at` on.
pub fn line_end(s: &[u8], at: usize) -> usize
    ensures { at ≤ result }
{
    for i in at..s.len() {
        if s[i] == b'\n' {
            return i;
        }
    }
    at.max(s.len())
}

// A byte as a terminal may have it.
fn visible(b: u8) -> u8 {
    match b {
        b'\t' | b' '..=b'~' => b,
        _ => b'?',
    }
}

// What stands under a byte before the mark.
fn blank(b: u8) -> u8 {
    if b == b'\t' { b } else { b' ' }
}

// At most 160 bytes of `w`, each as `shown` gives it.
fn say_each<F: Fn(u8) -> u8 + Drop>(w: &[u8], shown: F)
    requires { F.IsAlwaysCallable shown }
{
    let mut line = [0u8; 160];
    let n = w.len().min(line.len());
    for (to, b) in line.iter_mut().zip(w) {
        *to = shown(*b);
    }
    say(&line[..n]);
}

// The later of `start` and 100 bytes before `at`.
fn shown_from(start: usize, at: usize) -> usize {
    start.max(at.saturating_sub(100))
}

// The source line of byte `at`, from at most 100 bytes before it on, and a mark under the byte.
pub fn say_source(s: &[u8], at: usize) {
    let from = shown_from(line_start(s, at), at);
    say_each(part_of(s, from, line_end(s, from)), visible);
    say(b"\n");
    // the mark behind as many blanks as there are bytes before it
    say_each(part_of(s, from, at), blank);
    say(b"^\n");
}

// What refusals 1 to 8 mean.
fn reading(n: usize) -> &'static [u8] {
    match n {
        1 => b"what is handed over breaks a size or a rule",
        2 => b"a byte that a source may not have",
        3 => b"a string or block comment that does not end, or a string that meets a newline",
        4 => b"a grave accent that begins no token, or a joiner or quote mark outside macro text",
        5 => b"three quotation marks in a row",
        6 => b"a name of over 1,024 bytes",
        7 => b"a directive that is not taken, or is not of its form",
        _ => b"a conditional word with none open or out of order, a 33rd open, or one never closed",
    }
}

// What refusals 9 to 12 mean.
fn including(n: usize) -> &'static [u8] {
    match n {
        9 => {
            b"an include of no file given, with other text on its line, or of a / name in angle brackets"
        }
        10 => b"an include 16 deep",
        11 => b"a bad definition",
        _ => b"no room for a macro: over 256 of them, or over 65,536 bytes in all",
    }
}

// What refusals 13 to 18 mean.
fn replacing(n: usize) -> &'static [u8] {
    match n {
        13 => b"a usage of a macro that is not defined",
        14 => {
            b"an argument list missing, without end, with a wrong bracket, a directive or a quote mark"
        }
        15 => b"a number of arguments that the macro does not take",
        16 => b"a macro that uses itself",
        17 => b"over 1,024 tokens are pending",
        _ => b"the replacement limit is reached (--limit)",
    }
}

// What refusals from 19 on mean.
fn filling(n: usize) -> &'static [u8] {
    match n {
        19 => b"the flat text is over 2,097,152 bytes",
        20 => b"the flat text has over 131,072 lines",
        _ => b"over 131,072 words",
    }
}

// What a refusal's number means, by document 01.
pub fn say_meaning(n: usize) {
    say(match n {
        0..=8 => reading(n),
        9..=12 => including(n),
        13..=18 => replacing(n),
        _ => filling(n),
    });
}

// `refused N: what it means`
pub fn say_refused(n: usize) {
    say(b"refused ");
    say_number(n);
    say(b": ");
    say_meaning(n);
    say(b"\n");
}

// `FILE:LINE: byte B: refused N: what it means`, the source line in `s`, and a mark under the byte.
pub fn say_refusal(file: &[u8], s: &[u8], number: usize, line: usize, byte: usize) {
    say(file);
    say(b":");
    say_number(line);
    say(b": byte ");
    say_number(byte);
    say(b": ");
    say_refused(number);
    say_source(s, byte);
}
