// The macro store (document 01, "Macros") in lent buffers: stored forms packed in byte order of names, and a record for
// each. Records are reached through the crate `packed` only.
#![tactic(auto)]

ghost use Rattle.std.specs.Prelude.{◌≡◌, List, [], ℕ, ◌+◌, ◌-◌, ◌≤◌, ◌<◌, length, take};
ghost use Rattle.text.specs.Order.{order_of};
ghost use Rattle.definition.specs.Definitions.{Macro};
ghost use Rattle.form.specs.Forms.{form_of};
ghost use Rattle.store.specs.Stores.{macro_name, macro_at, encode, insert_at, replace_at, remove_at};
ghost use Rattle.store.specs.Stores.{find as findName, define as defineMacro, undefine as undefineName};
ghost use Rattle.store.specs.Buffers.{Holds, Stored, FormIs, Lent, Inserts, Replaces, Defines};

use packed::{Record, clear, clear_records, insert, read, remove, replace, shift, splice};
use std::cmp::Ordering;
use text::{compare, part_of};

// Where the form of macro `i` starts, or where the last one ends.
pub fn start_of(records: &[[u32; 4]], count: usize, i: usize) -> usize
    requires { i ≤ count }
    ensures { (ms : List Macro) (b : List ℕ) → Holds ms b records.now count → result ≡ length (encode (take i ms)) }
{
    if i == 0 {
        return 0;
    }
    let r = read(records, i - 1);
    r.text + r.size
}

// How the name `w` and the name of macro `i` stand in byte order.
fn order_at(bytes: &[u8], records: &[[u32; 4]], count: usize, i: usize, w: &[u8]) -> Ordering
    requires { i < count }
    ensures { (ms : List Macro) → Holds ms bytes.now records.now count → result ≡ order_of w.now (macro_name (macro_at ms i)) }
{
    let r = read(records, i);
    compare(w, part_of(bytes, r.start, r.start + r.name))
}

// Where a name stands among the macros, or where it belongs. Each name is compared in turn: a binary search needs the macros
// in ascending order, which the contract does not ask of them.
pub fn find(bytes: &[u8], records: &[[u32; 4]], count: usize, w: &[u8]) -> Result<usize, usize>
    ensures { (ms : List Macro) → Holds ms bytes.now records.now count → result ≡ findName w.now ms }
{
    for i in 0..count {
        match order_at(bytes, records, count, i, w) {
            Ordering::Less => return Err(i),
            Ordering::Equal => return Ok(i),
            Ordering::Greater => {}
        }
    }
    Err(count)
}

// The stored form of macro `i`, a part of the bytes.
pub fn form_at<'a>(bytes: &'a [u8], records: &[[u32; 4]], count: usize, i: usize) -> &'a [u8]
    requires { i < count }
    ensures { (ms : List Macro) → Holds ms bytes.now records.now count → result.now ≡ form_of (macro_at ms i) }
{
    let r = read(records, i);
    part_of(bytes, r.start, r.text + r.size)
}

// Takes out macro `i`.
fn remove_at(bytes: &mut [u8], records: &mut [[u32; 4]], count: usize, i: usize)
    requires { (i < count) × (length bytes.old ≤ 65536) × (Stored bytes.old records.old count) }
    ensures { (ms : List Macro) → Holds ms bytes.old records.old count → Holds (remove_at i ms) bytes.new records.new (count - 1) }
{
    let r = read(records, i);
    let live = start_of(records, count, count);
    let old = r.text + r.size - r.start;
    splice(bytes, r.start, old, b"", live);
    remove(records, i, count);
    shift(records, i, count - 1, 0, old);
}

// Takes out the macro of that name, if there is one; the number of macros then.
pub fn undefine(bytes: &mut [u8], records: &mut [[u32; 4]], count: usize, w: &[u8]) -> usize
    requires { (length bytes.old ≤ 65536) × Stored bytes.old records.old count }
    ensures { (ms : List Macro) → Holds ms bytes.old records.old count → Holds (undefineName w.now ms) bytes.new records.new result }
{
    match find(bytes, records, count, w) {
        Ok(i) => {
            remove_at(bytes, records, count, i);
            count - 1
        }
        Err(_) => count,
    }
}

// Puts a macro in at `i`, where records and bytes have room for it.
fn insert_at(
    bytes: &mut [u8],
    records: &mut [[u32; 4]],
    count: usize,
    i: usize,
    form: &[u8],
    name: usize,
    text: usize,
)
    requires { Inserts bytes.old records.old count i form.now name text }
    ensures { (ms : List Macro) (m : Macro) → Holds ms bytes.old records.old count → FormIs m form.now name text → Holds (insert_at i m ms) bytes.new records.new (count + 1) }
{
    let start = start_of(records, count, i);
    let live = start_of(records, count, count);
    let n = form.len();
    splice(bytes, start, 0, form, live);
    let r = Record {
        start,
        name,
        text: start + text,
        size: n - text,
    };
    insert(records, i, r, count);
    shift(records, i + 1, count + 1, n, 0);
}

// Puts a macro in the place of macro `i`, where the bytes have room for it.
fn replace_at(
    bytes: &mut [u8],
    records: &mut [[u32; 4]],
    count: usize,
    i: usize,
    form: &[u8],
    name: usize,
    text: usize,
)
    requires { Replaces bytes.old records.old count i form.now name text }
    ensures { (ms : List Macro) (m : Macro) → Holds ms bytes.old records.old count → FormIs m form.now name text → Holds (replace_at i m ms) bytes.new records.new count }
{
    let old = read(records, i);
    let start = old.start;
    let size = old.text + old.size - start;
    let live = start_of(records, count, count);
    let n = form.len();
    splice(bytes, start, size, form, live);
    let r = Record {
        start,
        name,
        text: start + text,
        size: n - text,
    };
    replace(records, i, r);
    shift(records, i + 1, count, n, size);
}

// Defines a macro of a new name, which belongs at `i`: the number of macros then, or `None` where there is no room (12).
fn define_new(
    bytes: &mut [u8],
    records: &mut [[u32; 4]],
    count: usize,
    i: usize,
    form: &[u8],
    name: usize,
    text: usize,
) -> Option<usize>
    requires { (i ≤ count) × Lent bytes.old records.old count form.now name text }
    ensures { (ms : List Macro) (m : Macro) → Holds ms bytes.old records.old count → FormIs m form.now name text → Defines (length records.old) (length bytes.old) (insert_at i m ms) ms bytes.new records.new result }
{
    let live = start_of(records, count, count);
    if 256 <= count {
        return None;
    }
    if records.len() <= count {
        return None;
    }
    if bytes.len() - live < form.len() {
        return None;
    }
    insert_at(bytes, records, count, i, form, name, text);
    Some(count + 1)
}

// Defines the macro at `i` anew, which takes no number more; `None` where there is no room (12).
fn redefine(
    bytes: &mut [u8],
    records: &mut [[u32; 4]],
    count: usize,
    i: usize,
    form: &[u8],
    name: usize,
    text: usize,
) -> Option<usize>
    requires { (i < count) × Lent bytes.old records.old count form.now name text }
    ensures { (ms : List Macro) (m : Macro) → Holds ms bytes.old records.old count → FormIs m form.now name text → Defines (length records.old) (length bytes.old) (replace_at i m ms) ms bytes.new records.new result }
{
    let live = start_of(records, count, count);
    let old = read(records, i);
    let kept = live - (old.text + old.size - old.start);
    if bytes.len() - kept < form.len() {
        return None;
    }
    replace_at(bytes, records, count, i, form, name, text);
    Some(count)
}

// Defines a macro by its stored form, with its name's length and where its text starts: the number of macros then, or
// `None` where there is no room (12).
pub fn define(
    bytes: &mut [u8],
    records: &mut [[u32; 4]],
    count: usize,
    form: &[u8],
    name: usize,
    text: usize,
) -> Option<usize>
    requires { Lent bytes.old records.old count form.now name text }
    ensures { (ms : List Macro) (m : Macro) → Holds ms bytes.old records.old count → FormIs m form.now name text → Defines (length records.old) (length bytes.old) (defineMacro m ms) ms bytes.new records.new result }
{
    match find(bytes, records, count, part_of(form, 0, name)) {
        Ok(i) => redefine(bytes, records, count, i, form, name, text),
        Err(i) => define_new(bytes, records, count, i, form, name, text),
    }
}

// Takes out all macros.
pub fn undefine_all(bytes: &mut [u8], records: &mut [[u32; 4]], count: usize)
    requires { Stored bytes.old records.old count }
    ensures { Holds [] bytes.new records.new 0 }
{
    let live = start_of(records, count, count);
    clear(bytes, 0, live);
    clear_records(records, 0, count);
}

// Makes buffers of any content hold no macros: "The macro store is zeroed at the start".
pub fn zero_store(bytes: &mut [u8], records: &mut [[u32; 4]])
    ensures { Holds [] bytes.new records.new 0 }
{
    let n = bytes.len();
    clear(bytes, 0, n);
    let k = records.len();
    clear_records(records, 0, k);
}
