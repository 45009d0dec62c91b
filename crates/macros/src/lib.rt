// The macro store as its users meet it (document 01): look up; a definition in a text, read and stored; start macros.
#![tactic(auto)]

ghost use Rattle.std.specs.Prelude.{◌≡◌, List, [], ◌+◌, ◌≤◌, ◌<◌, length, get_or, drop};
ghost use Rattle.definition.specs.Definitions.{Macro, macro, definition_at};
ghost use Rattle.store.specs.Stores.{define as defineMacro};
ghost use Rattle.store.specs.Buffers.{Holds, Stored, Defines};
ghost use Rattle.macros.specs.Looking.{plainly, Shows};
ghost use Rattle.macros.specs.Looking.{shown as shownOf};
ghost use Rattle.macros.specs.Defining.{Ready, GoodAt, Reads};
ghost use Rattle.macros.specs.Starting.{is_start_name, range_end, range_of, named_among, is_start, all_starts, starts_size, starts_fit, started, Starts};

use definition::{Judged, head_at, judge_definition};
use form::write_form;
use genuine::check_store;
use lex::{ESCAPED, NAME, in_file, token_at};
use names::directive_of;
use store::{define, find, form_at};
use text::{part_of, same};

// A definition in a text, read and stored: the number of macros then and its end; or barred by 2 to 6 at a place; or bad (11);
// or there is no room for it (12).
#[derive(Clone, Copy)]
pub enum ReadIn {
    Done(usize, usize),
    Barred(usize, usize),
    Bad,
    NoRoom,
}

// A name without a leading `\`.
pub fn plain_name(w: &[u8]) -> &[u8]
    ensures { result.now ≡ plainly w.now }
{
    if w.len() == 0 {
        return w;
    }
    if w[0] == 92 {
        return part_of(w, 1, w.len());
    }
    w
}

// The stored form of the macro of that name among `count`, empty if there is none.
fn shown<'a>(bytes: &'a [u8], records: &[[u32; 4]], count: usize, w: &[u8]) -> &'a [u8]
    ensures { (ms : List Macro) → Holds ms bytes.now records.now count → result.now ≡ shownOf w.now ms }
{
    let f = find(bytes, records, count, w);
    match f {
        Ok(i) => {
            if count <= i {
                return part_of(bytes, 0, 0);
            }
            form_at(bytes, records, count, i)
        }
        Err(_) => part_of(bytes, 0, 0),
    }
}

// Look up: the part of the macro bytes that holds the stored form of the macro `name`; empty if it is not defined, or if no
// definitions leave such records and bytes.
pub fn look_up<'a>(bytes: &'a [u8], records: &[[u32; 4]], name: &[u8]) -> &'a [u8]
    ensures { Shows bytes.now records.now name.now result.now }
{
    let c = check_store(records, bytes);
    match c {
        Some(n) => shown(bytes, records, n, plain_name(name)),
        None => part_of(bytes, 0, 0),
    }
}

// Stores the good definition whose word ends at `at` and which ends at `end`.
fn store_good(
    s: &[u8],
    at: usize,
    end: usize,
    bytes: &mut [u8],
    records: &mut [[u32; 4]],
    count: usize,
    work: &mut [u8],
    form: &mut [u8],
) -> ReadIn
    requires { (length bytes.old ≤ 65536) × (count ≤ 256) × (Stored bytes.old records.old count) × (length s.now < length work.old) × (length bytes.old ≤ length form.old) × (GoodAt s.now at end) }
    ensures { (ms : List Macro) → Holds ms bytes.old records.old count → Reads (definition_at s.now at) ms bytes.old bytes.new records.old records.new result }
{
    let f = write_form(s, at, work, form);
    match f {
        Ok((n, text)) => {
            let h = head_at(s, at);
            let d = define(
                bytes,
                records,
                count,
                part_of(form, 0, n),
                h.end - h.from,
                text,
            );
            match d {
                Some(k) => ReadIn::Done(k, end),
                None => ReadIn::NoRoom,
            }
        }
        Err(_) => ReadIn::NoRoom,
    }
}

// Reads the definition whose word ends at `at` and stores it among `count` macros.
pub fn define_at(
    s: &[u8],
    at: usize,
    bytes: &mut [u8],
    records: &mut [[u32; 4]],
    count: usize,
    name: &mut [u8],
    work: &mut [u8],
    form: &mut [u8],
) -> ReadIn
    requires { Ready s.now bytes.old records.old count name.old work.old form.old }
    ensures { (ms : List Macro) → Holds ms bytes.old records.old count → Reads (definition_at s.now at) ms bytes.old bytes.new records.old records.new result }
{
    let j = judge_definition(s, at, name, work);
    match j {
        Judged::Barred(n, p) => ReadIn::Barred(n, p),
        Judged::Bad(_) => ReadIn::Bad,
        Judged::Good(e) => store_good(s, at, e, bytes, records, count, work, form),
        Judged::Short => ReadIn::Bad,
    }
}

// Whether `w` can be the name of a start macro.
pub fn is_start_name(w: &[u8]) -> bool
    ensures { result ≡ is_start_name w.now }
{
    let t = token_at(w, 0, in_file());
    if !((t.kind == NAME) | (t.kind == ESCAPED)) {
        return false;
    }
    if t.bar != 0 {
        return false;
    }
    if t.end != w.len() {
        return false;
    }
    directive_of(plain_name(w)) == 0
}

// The part of `s` that a range names by its start and length.
fn range_of(s: &[u8], v: [u32; 2]) -> &[u8]
    ensures { (result.now ≡ range_of s.now v) × (length result.now < 4294967296) }
{
    let start = v[0] as usize;
    let size = v[1] as usize;
    part_of(s, start, start + size)
}

// The end of a range.
fn range_end(v: [u32; 2]) -> usize
    ensures { result ≡ range_end v }
{
    let start = v[0] as usize;
    let size = v[1] as usize;
    start + size
}

// Whether one of the ranges from `at` on has the name `w`.
fn named_among(s: &[u8], ranges: &[[u32; 2]], at: usize, w: &[u8]) -> bool
    ensures { result ≡ named_among s.now w.now (drop at ranges.now) }
{
    ranges
        .iter()
        .skip(at)
        .any(|&v| same(w, plain_name(range_of(s, v))))
}

// Whether range `i` is inside the store and has a start macro's name that none of those behind it has.
fn is_start_at(s: &[u8], ranges: &[[u32; 2]], i: usize) -> bool
    requires { i < length ranges.now }
    ensures { result ≡ is_start s.now (get_or ranges.now i []) (drop (i + 1) ranges.now) }
{
    if s.len() < range_end(ranges[i]) {
        return false;
    }
    let w = range_of(s, ranges[i]);
    if !is_start_name(w) {
        return false;
    }
    !named_among(s, ranges, i + 1, plain_name(w))
}

// Whether all ranges are names of start macros.
fn all_starts(s: &[u8], ranges: &[[u32; 2]]) -> bool
    ensures { result ≡ all_starts s.now ranges.now }
{
    for i in 0..ranges.len() {
        if !is_start_at(s, ranges, i) {
            return false;
        }
    }
    true
}

// How many bytes the stored forms of at most 256 start macros take.
fn starts_size(s: &[u8], ranges: &[[u32; 2]]) -> usize
    requires { length ranges.now ≤ 256 }
    ensures { result ≡ starts_size s.now ranges.now }
{
    let mut n = 0;
    for &v in ranges {
        let w = plain_name(range_of(s, v));
        n += w.len() + 1;
    }
    n
}

// Whether the ranges name start macros that fit into so many records and bytes.
pub fn starts_fit(s: &[u8], ranges: &[[u32; 2]], records: usize, bytes: usize) -> bool
    ensures { result ≡ starts_fit records bytes s.now ranges.now }
{
    if 256 < ranges.len() {
        return false;
    }
    if !all_starts(s, ranges) {
        return false;
    }
    if records < ranges.len() {
        return false;
    }
    starts_size(s, ranges) <= bytes
}

// Defines the macro `w` empty, with bytes for its stored form: the number of macros then, or `None` where there is no room.
fn define_empty(
    w: &[u8],
    bytes: &mut [u8],
    records: &mut [[u32; 4]],
    count: usize,
    form: &mut [u8],
) -> Option<usize>
    requires { (length bytes.old ≤ 65536) × (count ≤ 256) × (Stored bytes.old records.old count) × (length w.now < length form.old) }
    ensures { (ms : List Macro) → Holds ms bytes.old records.old count → Defines (length records.old) (length bytes.old) (defineMacro (macro w.now [] []) ms) ms bytes.new records.new result }
{
    let n = w.len();
    form[0..n].copy_from_slice(w);
    form[n] = 0;
    define(bytes, records, count, part_of(form, 0, n + 1), n, n + 1)
}

// Defines the start macros, which fit, in an empty store; their number.
pub fn define_starts(
    s: &[u8],
    ranges: &[[u32; 2]],
    bytes: &mut [u8],
    records: &mut [[u32; 4]],
    form: &mut [u8],
) -> usize
    requires { Starts s.now ranges.now bytes.old records.old form.old }
    ensures { Holds (started s.now ranges.now) bytes.new records.new result }
{
    let mut n = 0;
    for &v in ranges {
        let w = plain_name(range_of(s, v));
        match define_empty(w, bytes, records, n, form) {
            Some(k) => n = k,
            None => return n,
        }
    }
    n
}
