// Which macro stores definitions leave (document 01: "On a store that no definitions leave, look up shows an empty part").
#![tactic(auto)]

ghost use Rattle.std.specs.Prelude.{◌≡◌, [], ◌+◌, ◌≤◌, length, drop};
ghost use Rattle.text.specs.Bytes.{part};
ghost use Rattle.text.specs.Order.{order_of};
ghost use Rattle.packed.specs.Records.{Small};
ghost use Rattle.genuine.specs.Fitness.{is_short, all_solid, fit_name, all_run, fit_formal, is_trimmed, fit_stored};
ghost use Rattle.genuine.specs.Layout.{mark_at, formal_end, formal_name, default_fits, named_from, formal_fits, formals_fit, is_less, body_fits, entry_fits, all_zero, all_blank, ends_there, left_from, left_in};
ghost use Rattle.genuine.specs.Layout.{is_blank as isBlankRecord};

use judging::judge_whole;
use lex::{is_run, is_space, is_start};
use names::directive_of;
use packed::{Record, read};
use std::cmp::Ordering;
use text::{compare, part_of, peek, same, two_at};

// Whether all bytes are legal and no white space.
fn all_solid(w: &[u8]) -> bool
    ensures { result ≡ all_solid w.now }
{
    w.iter().all(|&b| 33 <= b && b <= 126)
}

// Whether a name has 1 to 1,024 bytes.
fn is_short(w: &[u8]) -> bool
    ensures { result ≡ is_short w.now }
{
    (0 < w.len()) & (w.len() <= 1024)
}

// Whether a definition can have the name `w`.
fn is_fit_name(w: &[u8]) -> bool
    ensures { result ≡ fit_name w.now }
{
    if !is_short(w) {
        return false;
    }
    if !all_solid(w) {
        return false;
    }
    directive_of(w) == 0
}

// Whether all bytes are letters, digits, `_` or `$`.
fn all_run(w: &[u8]) -> bool
    ensures { result ≡ all_run w.now }
{
    w.iter().all(|&b| is_run(36, b))
}

// Whether a formal can have the name `w`.
fn is_fit_formal(w: &[u8]) -> bool
    ensures { result ≡ fit_formal w.now }
{
    if !is_short(w) {
        return false;
    }
    if !is_start(w[0]) {
        return false;
    }
    all_run(&w[1..])
}

// Whether no white space stands at either end.
fn is_trimmed(w: &[u8]) -> bool
    ensures { result ≡ is_trimmed w.now }
{
    if w.len() == 0 {
        return true;
    }
    if is_space(w[0]) {
        return false;
    }
    !is_space(w[w.len() - 1])
}

// Whether a definition can store the text (or the default) `w`, with bytes for names and for brackets.
fn is_fit_stored(w: &[u8], text: bool, name: &mut [u8], stack: &mut [u8]) -> bool
    requires { (length w.now ≤ 65535) × (1025 ≤ length name.old) × (16384 ≤ length stack.old) }
    ensures { result ≡ fit_stored text w.now }
{
    if !is_trimmed(w) {
        return false;
    }
    let v = judge_whole(w, text, name, stack);
    match v {
        Some(bad) => !bad,
        None => false,
    }
}

// Where the mark of the formal at `i` stands.
pub fn mark_at(b: &[u8], i: usize) -> usize
    requires { i ≤ 4611686018427387904 }
    ensures { (result ≡ mark_at b.now i) × (result ≤ i + 65537) }
{
    i + 2 + two_at(b, i)
}

// Where the formal at `i` ends.
pub fn formal_end(b: &[u8], i: usize) -> usize
    requires { i ≤ 2305843009213693952 }
    ensures { (result ≡ formal_end b.now i) × (result ≤ i + 131075) }
{
    let m = mark_at(b, i);
    m + 3 + two_at(b, m + 1)
}

pub fn formal_name(b: &[u8], i: usize) -> &[u8]
    requires { i ≤ 2305843009213693952 }
    ensures { result.now ≡ formal_name b.now i }
{
    part_of(b, i + 2, mark_at(b, i))
}

// Whether the formal at `i` has the mark 0 and no default, or the mark 1 and one that a definition can store.
fn default_fits(b: &[u8], i: usize, name: &mut [u8], stack: &mut [u8]) -> bool
    requires { (i ≤ 2305843009213693952) × (1025 ≤ length name.old) × (16384 ≤ length stack.old) }
    ensures { result ≡ default_fits b.now i }
{
    let m = mark_at(b, i);
    let n = two_at(b, m + 1);
    if peek(b, m) == 0 {
        return n == 0;
    }
    if peek(b, m) != 1 {
        return false;
    }
    is_fit_stored(part_of(b, m + 3, m + 3 + n), false, name, stack)
}

// Whether one of the `count` formals from `at` on has the name `w`.
fn named_from(b: &[u8], at: usize, count: usize, w: &[u8]) -> bool
    requires { (count ≤ 16) × (at ≤ 1152921504606846976) }
    ensures { result ≡ named_from count b.now at w.now }
{
    let mut i = at;
    for _ in 0..count {
        if same(w, formal_name(b, i)) {
            return true;
        }
        i = formal_end(b, i);
    }
    false
}

// Whether the formal at `i`, with `more` behind it, is one of a definition and ends at `end` or before.
fn formal_fits(
    b: &[u8],
    i: usize,
    more: usize,
    end: usize,
    name: &mut [u8],
    stack: &mut [u8],
) -> bool
    requires { (i ≤ 65536) × (more ≤ 15) × (1025 ≤ length name.old) × (16384 ≤ length stack.old) }
    ensures { result ≡ formal_fits more b.now i end }
{
    let e = formal_end(b, i);
    if end < e {
        return false;
    }
    let w = formal_name(b, i);
    if !is_fit_formal(w) {
        return false;
    }
    if !default_fits(b, i, name, stack) {
        return false;
    }
    !named_from(b, e, more, w)
}

// Whether `count` formals reach from `at` to `end`.
fn formals_fit(
    b: &[u8],
    at: usize,
    count: usize,
    end: usize,
    name: &mut [u8],
    stack: &mut [u8],
) -> bool
    requires { (at ≤ 65536) × (count ≤ 16) × (end ≤ 65536) × (1025 ≤ length name.old) × (16384 ≤ length stack.old) }
    ensures { result ≡ formals_fit count b.now at end }
{
    let mut i = at;
    for more in (0..count).rev() {
        if !formal_fits(b, i, more, end, name, stack) {
            return false;
        }
        i = formal_end(b, i);
    }
    i == end
}

// Whether the name `w` stands before `v` in byte order.
fn is_before(w: &[u8], v: &[u8]) -> bool
    ensures { result ≡ is_less (order_of w.now v.now) }
{
    let o = compare(w, v);
    match o {
        Ordering::Less => true,
        Ordering::Equal => false,
        Ordering::Greater => false,
    }
}

// Whether the text of the record `r` and the formals before it are such that a definition stores them.
fn body_fits(b: &[u8], r: Record, name: &mut [u8], stack: &mut [u8]) -> bool
    requires { (Small r) × (length b.now ≤ 65536) × (r.start + r.name + 1 ≤ r.text) × (r.text + r.size ≤ length b.now) × (1025 ≤ length name.old) × (16384 ≤ length stack.old) }
    ensures { result ≡ body_fits b.now r }
{
    let c = r.start + r.name;
    let count = peek(b, c) as usize;
    if 16 < count {
        return false;
    }
    if !formals_fit(b, c + 1, count, r.text, name, stack) {
        return false;
    }
    is_fit_stored(part_of(b, r.text, r.text + r.size), true, name, stack)
}

// Whether the form of the record `r` starts at `at`, behind that of the name from `from` to before `to`, and is one that a
// definition stores.
fn entry_fits(
    b: &[u8],
    at: usize,
    from: usize,
    to: usize,
    r: Record,
    name: &mut [u8],
    stack: &mut [u8],
) -> bool
    requires { (Small r) × (length b.now ≤ 65536) × (1025 ≤ length name.old) × (16384 ≤ length stack.old) }
    ensures { result ≡ entry_fits b.now at (part b.now from to) r }
{
    if r.start != at {
        return false;
    }
    if b.len() < r.text + r.size {
        return false;
    }
    let c = r.start + r.name;
    if r.text < c + 1 {
        return false;
    }
    let w = part_of(b, r.start, c);
    if !is_fit_name(w) {
        return false;
    }
    if !is_before(part_of(b, from, to), w) {
        return false;
    }
    body_fits(b, r, name, stack)
}

// Whether all bytes from `at` on are zero.
fn all_zero(b: &[u8], at: usize) -> bool
    ensures { result ≡ all_zero (drop at b.now) }
{
    part_of(b, at, b.len()).iter().all(|&x| x == 0)
}

fn is_blank(r: Record) -> bool
    ensures { result ≡ isBlankRecord r }
{
    (r.start == 0) & ((r.name == 0) & ((r.text == 0) & (r.size == 0)))
}

// Whether all records from `at` on are blank.
fn all_blank(records: &[[u32; 4]], at: usize) -> bool
    ensures { result ≡ all_blank (drop at records.now) }
{
    for i in at..records.len() {
        if !is_blank(read(records, i)) {
            return false;
        }
    }
    true
}

// The number `count` of macros, the form of the last of which ends at `end`; `None` if something stands behind them.
fn ends_there(records: &[[u32; 4]], bytes: &[u8], count: usize, end: usize) -> Option<usize>
    ensures { result ≡ ends_there count bytes.now end (drop count records.now) }
{
    if !all_blank(records, count) {
        return None;
    }
    if !all_zero(bytes, end) {
        return None;
    }
    Some(count)
}

// Checks records and at most 65,536 bytes, with bytes for names and for brackets: as `check_store` answers.
fn check_taken(
    records: &[[u32; 4]],
    bytes: &[u8],
    name: &mut [u8],
    stack: &mut [u8],
) -> Option<usize>
    requires { (length bytes.now ≤ 65536) × (1025 ≤ length name.old) × (16384 ≤ length stack.old) }
    ensures { result ≡ left_from 0 bytes.now 0 [] records.now }
{
    let mut end = 0;
    let mut from = 0;
    let mut to = 0;
    for i in 0..records.len() {
        let r = read(records, i);
        if is_blank(r) {
            return ends_there(records, bytes, i, end);
        }
        if 256 <= i {
            return None;
        }
        if !entry_fits(bytes, end, from, to, r, name, stack) {
            return None;
        }
        from = r.start;
        to = r.start + r.name;
        end = r.text + r.size;
    }
    ends_there(records, bytes, records.len(), end)
}

// The number of macros in the store that the records and bytes make, or `None` if no definitions leave such.
pub fn check_store(records: &[[u32; 4]], bytes: &[u8]) -> Option<usize>
    ensures { result ≡ left_in bytes.now records.now }
{
    if 65536 < bytes.len() {
        return None;
    }
    let mut name = [0u8; 1025];
    let mut stack = [0u8; 16384];
    check_taken(records, bytes, &mut name, &mut stack)
}
