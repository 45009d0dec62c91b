// Flattens and classifies inputs of the printing program's form (document 01) and prints what comes of them: as that
// program does, or the whole outcome.
#![tactic(auto)]

ghost use Rattle.std.specs.Prelude.{◌≤◌};

use flatten::Flattened;
use formats::{
    STDOUT_FILENO, say, say_bytes, say_classified, say_count, say_number, say_pass, say_records,
    say_refusal, say_words,
};
use settings::Settings;
use text::part_of;

// Flattens an input of at most `most` bytes, if it is of the form. The table has room for one file more than are taken, and
// the start macros for one more.
fn flatten_input(
    s: &[u8],
    most: usize,
    root: usize,
    set: usize,
    limit: usize,
    text: &mut [u8],
    map: &mut [u32],
    records: &mut [[u32; 4]],
    bytes: &mut [u8],
) -> Option<Flattened>
    requires { most ≤ 1000000 }
{
    if most < s.len() {
        return None;
    }
    let mut table = [[0u32; 5]; 65];
    let mut starts = [[0u32; 2]; 257];
    let (n, m) = input::parse(s, &mut table, &mut starts)?;
    let files = &table[..n];
    let names = &starts[..m];
    Some(flatten::flatten(s, files, root, names, set, limit, text, map, records, bytes))
}

// The length of the text and the text, with a newline behind it where its last is missing.
fn print_text(text: &[u8]) {
    let n = text.len();
    say_count(b"text", n);
    say(text);
    if n == 0 {
        return;
    }
    if text[n - 1] != 10 {
        say(b"\n");
    }
}

// A map entry: a line of its file and line, or behind a space as it is.
fn print_entry(v: u32, placed: bool) {
    if placed {
        io::print_decimal(STDOUT_FILENO, (v / 131072) as u64);
        say_number((v % 131072) as usize);
        say(b"\n");
        return;
    }
    say_number(v as usize);
}

fn print_entries(map: &[u32], n: usize, placed: bool) {
    for &v in map.iter().take(n) {
        print_entry(v, placed);
    }
}

// The sections of a text that is not refused, unless classify refuses it.
fn print_sections(r: Flattened, text: &[u8], map: &[u32], words: &mut [[u32; 3]]) {
    let flat = part_of(text, 0, r.written);
    let c = classify::classify(flat, 3, words);
    if c.number != 0 {
        say_refusal(b"refused", c.number, 0, c.line, c.byte);
        return;
    }
    print_text(flat);
    say_count(b"map", r.lines);
    print_entries(map, r.lines, true);
    say_words(b"", words, c.words);
}

// What the printing program writes of an input, with these buffers lent.
pub fn print_input(
    s: &[u8],
    text: &mut [u8],
    map: &mut [u32],
    records: &mut [[u32; 4]],
    bytes: &mut [u8],
    words: &mut [[u32; 3]],
) {
    let a = flatten_input(s, 60000, 0, 3, 100000, text, map, records, bytes);
    match a {
        None => say_refusal(b"refused", 1, 0, 0, 0),
        Some(r) => {
            if r.number != 0 {
                say_refusal(b"refused", r.number, r.file, r.line, r.byte);
                return;
            }
            print_sections(r, text, map, words);
        }
    }
}

// Flatten's answer, the replacements and the deepest nesting.
fn print_answer(r: Flattened) {
    if r.number == 0 {
        say(b"flatten ok\n");
    } else {
        say_refusal(b"flatten refused", r.number, r.file, r.line, r.byte);
    }
    say(b"counts");
    say_number(r.count);
    say_number(r.deepest);
    say(b"\n");
}

// The first `n` map entries as they are, a hyphen for none.
fn print_map(map: &[u32], n: usize) {
    say(b"map");
    if n == 0 {
        say(b" -");
    }
    print_entries(map, n, false);
    say(b"\n");
}

fn print_net(n: usize) {
    match n {
        0 => say(b" wire"),
        1 => say(b" tri"),
        2 => say(b" tri0"),
        3 => say(b" tri1"),
        4 => say(b" wand"),
        5 => say(b" triand"),
        6 => say(b" wor"),
        7 => say(b" trior"),
        8 => say(b" trireg"),
        9 => say(b" uwire"),
        _ => say(b" none"),
    }
}

fn print_drive(n: usize) {
    match n {
        0 => say(b" none"),
        1 => say(b" pull0"),
        _ => say(b" pull1"),
    }
}

fn print_set(n: usize) {
    match n {
        0 => say(b" 1364-1995"),
        1 => say(b" 1364-2001"),
        2 => say(b" 1364-2005"),
        _ => say(b" 1800-2005"),
    }
}

fn print_scale(c: Settings) {
    if !c.scaled {
        say(b" unset");
        return;
    }
    say_number(c.unit);
    say(b"/");
    io::print_decimal(STDOUT_FILENO, c.precision as u64);
}

// The directive state, a hyphen behind refusal 1.
fn print_state(number: usize, c: Settings) {
    say(b"state");
    if number == 1 {
        say(b" -\n");
        return;
    }
    print_scale(c);
    print_net(c.net);
    say_number(c.cell as usize);
    print_drive(c.drive);
    print_set(c.keywords);
    say(b"\n");
}

fn print_flattened(r: Flattened, text: &[u8], map: &[u32], records: &[[u32; 4]], bytes: &[u8]) {
    print_answer(r);
    say_bytes(b"text", part_of(text, 0, r.written));
    print_map(map, r.lines);
    say_count(b"macros", r.macros);
    say_records(records, r.macros);
    say_bytes(b"bytes", part_of(bytes, 0, r.stored));
    print_state(r.number, r.settings);
}

// The whole outcome: of flatten, of classify, which reads the text that stands, refused or not, and of pass on the macros
// left; 1 for pass behind refusal 1.
fn print_outcome(
    r: Flattened,
    set: u32,
    text: &[u8],
    map: &[u32],
    records: &[[u32; 4]],
    bytes: &[u8],
    words: &mut [[u32; 3]],
) {
    print_flattened(r, text, map, records, bytes);
    let c = classify::classify(part_of(text, 0, r.written), set, words);
    say_classified(c, words);
    if r.number == 1 {
        say(b"pass 1\n");
        return;
    }
    say_pass(records, bytes);
}

// Flattens an input of up to 1,000,000 bytes and prints the whole outcome.
pub fn dump_input(
    s: &[u8],
    root: usize,
    set: u32,
    limit: usize,
    text: &mut [u8],
    map: &mut [u32],
    records: &mut [[u32; 4]],
    bytes: &mut [u8],
    words: &mut [[u32; 3]],
) {
    let a = flatten_input(
        s,
        1000000,
        root,
        set as usize,
        limit,
        text,
        map,
        records,
        bytes,
    );
    match a {
        None => say(b"format\n"),
        Some(r) => print_outcome(r, set, text, map, records, bytes, words),
    }
}
