// Runs a script of definitions, removals, look-ups and passes on standard input over one macro store, and prints what each
// answers. A step is a letter and its fields; a number is four bytes, low first; a name, a text or bytes are a number and so
// many bytes; records are four numbers each.
//   N bytes records        an empty store in so many lent bytes and records
//   S text k (start size)* start macros, as ranges of the text
//   D text                 the definition at the start of the text
//   U name, C              takes out a macro; all macros
//   L name                 looks a macro up
//   Q                      passes the store
//   P                      prints the records and bytes
//   F name bytes k records looks a macro up in these bytes and k records
//   G bytes k records      passes these bytes and k records
#![tactic(auto)]

ghost use Rattle.std.specs.Prelude.{◌≡◌, ◌<◌, ◌≤◌, length};
ghost use Rattle.store_cases.specs.Kept.{Kept, counted};

use formats::{
    STDIN_FILENO, field_at, field_end, least, number_at, say, say_count, say_hex, say_number,
    say_pass, say_records,
};
use macros::ReadIn;
use text::part_of;

// A number that bytes give, so that many need not be printed.
fn sum_of(w: &[u8]) -> usize {
    let mut n = 0;
    for &b in w {
        n = (n * 31 + usize::from(b)) % 16777216;
    }
    n
}

// The length of some bytes, the number that they give, and the first 300 of them.
fn say_bytes(word: &[u8], w: &[u8]) {
    say(word);
    say_number(w.len());
    say_number(sum_of(w));
    say(b" ");
    say_hex(part_of(w, 0, 300));
    say(b"\n");
}

// How many records from `count` on are not blank.
fn count_past(records: &[[u32; 4]], count: usize) -> usize {
    records
        .iter()
        .skip(count)
        .filter(|v| **v != [0u32; 4])
        .count()
}

fn record_of(w: &[u8]) -> [u32; 4] {
    [
        number_at(w, 0) as u32,
        number_at(w, 4) as u32,
        number_at(w, 8) as u32,
        number_at(w, 12) as u32,
    ]
}

fn range_of(w: &[u8]) -> [u32; 2] {
    [number_at(w, 0) as u32, number_at(w, 4) as u32]
}

// Copies records, as many as there are, from the bytes `w`.
fn fill_records(w: &[u8], records: &mut [[u32; 4]]) {
    for (i, v) in records.iter_mut().enumerate() {
        *v = record_of(part_of(w, 16 * i, w.len()));
    }
}

// Copies ranges, as many as there are, from the bytes `w`.
fn fill_ranges(w: &[u8], ranges: &mut [[u32; 2]]) {
    for (i, v) in ranges.iter_mut().enumerate() {
        *v = range_of(part_of(w, 8 * i, w.len()));
    }
}

// How many rows follow the number at `at`, at most 300.
fn rows_at(s: &[u8], at: usize) -> usize
    ensures { result ≤ 300 }
{
    least(number_at(s, at), 300)
}

fn say_two(word: &[u8], a: usize, b: usize) {
    say(word);
    say_number(a);
    say_number(b);
    say(b"\n");
}

fn say_answer(a: ReadIn) {
    match a {
        ReadIn::Done(n, e) => say_two(b"defined", n, e),
        ReadIn::Barred(n, p) => say_two(b"barred", n, p),
        ReadIn::Bad => say(b"refused 11\n"),
        ReadIn::NoRoom => say(b"refused 12\n"),
    }
}

// The number of macros by an answer, where there were `count`.
fn count_by(a: ReadIn, count: usize) -> usize
    ensures { result ≡ counted a count }
{
    match a {
        ReadIn::Done(n, _) => n,
        ReadIn::Barred(_, _) => count,
        ReadIn::Bad => count,
        ReadIn::NoRoom => count,
    }
}

// Carries out the definition at the start of a text; the number of macros then.
fn run_definition(s: &[u8], bytes: &mut [u8], records: &mut [[u32; 4]], count: usize) -> usize
    requires { (length bytes.old ≤ 65536) × (Kept bytes.old records.old count) }
    ensures { Kept bytes.new records.new result }
{
    let mut name = [0u8; 1025];
    let mut work = [0u8; 131072];
    let mut form = [0u8; 65536];
    if 131072 <= s.len() {
        say(b"the definition is too long\n");
        return count;
    }
    let a = macros::define_at(s, 7, bytes, records, count, &mut name, &mut work, &mut form);
    say_answer(a);
    count_by(a, count)
}

// Takes the macro of this name out of the store; how many are left.
fn take_out(w: &[u8], bytes: &mut [u8], records: &mut [[u32; 4]], count: usize) -> usize
    requires { (length bytes.old ≤ 65536) × (Kept bytes.old records.old count) }
    ensures { Kept bytes.new records.new result }
{
    let n = store::undefine(bytes, records, count, macros::plain_name(w));
    say_count(b"undefined", n);
    n
}

// Zeroes the store and defines start macros in it, if they fit; the number of macros then.
fn define_starts(s: &[u8], ranges: &[[u32; 2]], bytes: &mut [u8], records: &mut [[u32; 4]]) -> usize
    requires { length bytes.old ≤ 65536 }
    ensures { Kept bytes.new records.new result }
{
    let mut form = [0u8; 1025];
    store::zero_store(bytes, records);
    if !macros::starts_fit(s, ranges, records.len(), bytes.len()) {
        say(b"refused 1\n");
        return 0;
    }
    let n = macros::define_starts(s, ranges, bytes, records, &mut form);
    say_count(b"starts", n);
    n
}

// The same with the text and the ranges at `at`.
fn run_starts(s: &[u8], at: usize, bytes: &mut [u8], records: &mut [[u32; 4]]) -> usize
    requires { length bytes.old ≤ 65536 }
    ensures { Kept bytes.new records.new result }
{
    let mut ranges = [[0u32; 2]; 300];
    let k = field_end(s, at);
    let n = rows_at(s, k);
    fill_ranges(part_of(s, k + 4, s.len()), &mut ranges);
    define_starts(field_at(s, at), &ranges[0..n], bytes, records)
}

fn clear_store(bytes: &mut [u8], records: &mut [[u32; 4]], count: usize) -> usize
    requires { Kept bytes.old records.old count }
    ensures { Kept bytes.new records.new result }
{
    store::undefine_all(bytes, records, count);
    say(b"cleared\n");
    0
}

// Prints the records, how many behind them are not blank, and the bytes.
fn print_store(bytes: &[u8], records: &[[u32; 4]], count: usize) {
    say_records(records, count);
    say_count(b"past", count_past(records, count));
    say_bytes(b"bytes", bytes);
}

// Passes the bytes and records at `at`, or looks this name up in them.
fn run_foreign(s: &[u8], at: usize, passes: bool, name: &[u8]) {
    let mut records = [[0u32; 4]; 300];
    let k = field_end(s, at);
    let n = rows_at(s, k);
    fill_records(part_of(s, k + 4, s.len()), &mut records);
    if passes {
        say_pass(&records[0..n], field_at(s, at));
        return;
    }
    say_bytes(
        b"foreign",
        macros::look_up(field_at(s, at), &records[0..n], name),
    );
}

// Carries out a step that changes nothing.
fn show(b: u8, s: &[u8], at: usize, bytes: &[u8], records: &[[u32; 4]], count: usize) {
    match b {
        b'L' => say_bytes(b"form", macros::look_up(bytes, records, field_at(s, at))),
        b'Q' => say_pass(records, bytes),
        b'P' => print_store(bytes, records, count),
        b'F' => run_foreign(s, field_end(s, at), false, field_at(s, at)),
        b'G' => run_foreign(s, at, true, b""),
        _ => say(b"no such step\n"),
    }
}

// Carries out the step that the letter `b` begins, whose fields start at `at`; the number of macros then.
fn run_step(
    b: u8,
    s: &[u8],
    at: usize,
    bytes: &mut [u8],
    records: &mut [[u32; 4]],
    count: usize,
) -> usize
    requires { (length bytes.old ≤ 65536) × (Kept bytes.old records.old count) }
    ensures { Kept bytes.new records.new result }
{
    match b {
        b'D' => run_definition(field_at(s, at), bytes, records, count),
        b'U' => take_out(field_at(s, at), bytes, records, count),
        b'S' => run_starts(s, at, bytes, records),
        b'C' => clear_store(bytes, records, count),
        _ => {
            show(b, s, at, bytes, records, count);
            count
        }
    }
}

// The end of the step.
fn step_end(b: u8, s: &[u8], at: usize) -> usize {
    let k = field_end(s, at);
    let m = field_end(s, k);
    match b {
        b'D' => k,
        b'U' => k,
        b'L' => k,
        b'S' => k + 4 + 8 * rows_at(s, k),
        b'G' => k + 4 + 16 * rows_at(s, k),
        b'F' => m + 4 + 16 * rows_at(s, m),
        _ => at,
    }
}

// Carries out the steps from `at` on up to the next store, over an empty one; where that starts.
fn run_steps(s: &[u8], at: usize, bytes: &mut [u8], records: &mut [[u32; 4]]) -> usize
    requires { length bytes.old ≤ 65536 }
{
    store::zero_store(bytes, records);
    let mut i = at;
    let mut count = 0;
    while i < s.len() {
        let b = s[i];
        if b == b'N' {
            return i;
        }
        count = run_step(b, s, i + 1, bytes, records, count);
        let e = step_end(b, s, i + 1);
        if e <= i {
            return s.len();
        }
        i = e;
    }
    i
}

// Runs the stores of the script, one after the other.
fn run_all(s: &[u8], bytes: &mut [u8], records: &mut [[u32; 4]]) {
    let mut i = 0;
    while i < s.len() {
        if s[i] != b'N' {
            say(b"no store\n");
            return;
        }
        let n = least(number_at(s, i + 1), least(bytes.len(), 65536));
        let k = least(number_at(s, i + 5), records.len());
        say_two(b"store", n, k);
        let e = run_steps(s, i + 9, &mut bytes[0..n], &mut records[0..k]);
        if e <= i {
            return;
        }
        i = e;
    }
}

// Reads the script into `input` and runs it.
fn read_and_run(input: &mut [u8], bytes: &mut [u8], records: &mut [[u32; 4]]) {
    let n = io::read_full(STDIN_FILENO, input);
    run_all(&input[0..n], bytes, records);
}

fn main() {
    let mut input = [0u8; 1048576];
    let mut bytes = [170u8; 65536];
    let mut records = [[7u32; 4]; 300];
    read_and_run(&mut input, &mut bytes, &mut records);
}
