// The operations on lent macro records as structs (document 01): "start, name length, text start, text length". Thin: flatten,
// look up and pass are the core's, over rows of four numbers.
#![tactic(auto)]

ghost use Rattle.std.specs.Prelude.{◌≡◌, true, false, ◌&&◌, cond, [], ◌<◌, ◌≤◌, eqb, length, get_or, take, drop};
ghost use Rattle.macros.specs.Looking.{Shows};
ghost use Rattle.pass.specs.Answer.{Passes};
ghost use Rattle.pass.specs.declared.Answer.TheVariants.{Foreign};
ghost use Rattle.flatten.specs.Flattening.{lent, hand_over, Flattens};
ghost use Rattle.records.specs.Records.{no_record, is_none, all_none, rows_of, inserted, removed};
ghost use Rattle.records.specs.Rows.{few, no_table, record_at, of_row, with_row, tabled, rowed, cleared, filled, Keeps};

use flatten::Flattened;
use pass::Answer;

// A macro record: where the stored form starts, the name's length, where the text starts, its length.
#[derive(Clone, Copy)]
pub struct Record {
    pub start: u32,
    pub name_length: u32,
    pub text_start: u32,
    pub text_length: u32,
}

// The first `length` of these records, by value.
#[derive(Clone, Copy)]
struct Table {
    rows: [Record; 256],
    length: usize,
}

// What a flattening over rows leaves: its answer, the macros' records, and how many lent records are to be cleared.
#[derive(Clone, Copy)]
struct Kept {
    table: Table,
    clears: usize,
    answer: Flattened,
}

// The zero record.
fn no_record() -> Record
    ensures { result ≡ no_record }
{
    Record {
        start: 0,
        name_length: 0,
        text_start: 0,
        text_length: 0,
    }
}

pub fn read(records: &[Record], i: usize) -> Record
    requires { i < length records.now }
    ensures { result ≡ get_or records.now i no_record }
{
    records[i]
}

// The records from `at` to `n` move up by one place, over record `n`, and `r` goes to `at`.
pub fn insert(records: &mut [Record], n: usize, at: usize, r: Record)
    requires { (n < length records.old) × (at ≤ n) }
    ensures { records.new ≡ inserted records.old n at r }
{
    records.copy_within(at..n, at + 1);
    records[at] = r;
}

// The records after `at`, up to `n`, move down by one place, and the zero record goes to the last of them.
pub fn remove(records: &mut [Record], n: usize, at: usize)
    requires { (n ≤ length records.old) × (at < n) }
    ensures { records.new ≡ removed records.old n at no_record }
{
    records.copy_within(at + 1..n, at);
    records[n - 1] = no_record();
}

// The record at `i` of a table.
fn record_at(t: Table, i: usize) -> Record
    requires { i < 256 }
    ensures { result ≡ record_at t i }
{
    t.rows[i]
}

// Removes the last of the first `n` records again and again.
fn clear(records: &mut [Record], n: usize)
    requires { n ≤ length records.old }
    ensures { records.new ≡ cleared records.old n }
{
    for i in (0..n).rev() {
        remove(records, i + 1, i);
    }
}

// Inserts each record of `t` behind those before it.
fn fill(records: &mut [Record], t: Table)
    requires { (t.length ≤ length records.old) × (t.length ≤ 256) }
    ensures { records.new ≡ filled records.old t t.length }
{
    for i in 0..t.length {
        let r = record_at(t, i);
        insert(records, i, i, r);
    }
}

// At most 256: more macros there cannot be.
fn at_most(n: usize) -> usize
    ensures { result ≡ few n }
{
    if n < 256 {
        return n;
    }
    256
}

fn no_table() -> Table
    ensures { result ≡ no_table }
{
    let z = Record {
        start: 0,
        name_length: 0,
        text_start: 0,
        text_length: 0,
    };
    Table {
        rows: [z; 256],
        length: 0,
    }
}

fn with_row(t: Table, i: usize, r: Record) -> Table
    requires { i < 256 }
    ensures { result ≡ with_row t i r }
{
    let mut u = t;
    u.rows[i] = r;
    u.length = i + 1;
    u
}

// The first records, at most 256, as a table.
fn load(records: &[Record]) -> Table
    ensures { result ≡ tabled (λ i. get_or records.now i no_record) (few (length records.now)) }
{
    let n = at_most(records.len());
    let mut t = no_table();
    for i in 0..n {
        t = with_row(t, i, read(records, i));
    }
    t
}

// Whether `r` is zero too.
fn still_zero(zero: bool, r: Record) -> bool
    ensures { result ≡ (zero && is_none r) }
{
    zero & ((r.start == 0) & ((r.name_length == 0) & ((r.text_start == 0) & (r.text_length == 0))))
}

// Whether the records from `from` on are zero.
fn rest_is_zero(records: &[Record], from: usize) -> bool
    ensures { result ≡ all_none (drop from records.now) }
{
    let mut zero = true;
    for i in from..records.len() {
        zero = still_zero(zero, read(records, i));
    }
    zero
}

// The record of row `i`.
fn record_of(rows: &[[u32; 4]], i: usize) -> Record
    requires { i < length rows.now }
    ensures { result ≡ of_row (get_or rows.now i []) }
{
    Record {
        start: rows[i][0],
        name_length: rows[i][1],
        text_start: rows[i][2],
        text_length: rows[i][3],
    }
}

// The first `n` rows as a table.
fn table_of(rows: &[[u32; 4]], n: usize) -> Table
    requires { (n ≤ length rows.now) × (n ≤ 256) }
    ensures { result ≡ tabled (λ i. of_row (get_or rows.now i [])) n }
{
    let mut t = no_table();
    for i in 0..n {
        t = with_row(t, i, record_of(rows, i));
    }
    t
}

// Each record of `t` as a row.
fn write_rows(t: Table, rows: &mut [[u32; 4]])
    requires { (t.length ≤ length rows.old) × (t.length ≤ 256) }
    ensures { rows.new ≡ rowed rows.old t t.length }
{
    for i in 0..t.length {
        let r = record_at(t, i);
        rows[i] = [r.start, r.name_length, r.text_start, r.text_length];
    }
}

// Flattens over the first of these rows, as many as there are records, at most 256.
fn flatten_in(
    files: &[u8],
    table: &[[u32; 5]],
    root: usize,
    starts: &[[u32; 2]],
    set: usize,
    limit: usize,
    text: &mut [u8],
    map: &mut [u32],
    n: usize,
    rows: &mut [[u32; 4]],
    bytes: &mut [u8],
) -> Kept
    requires { length rows.old ≡ 256 }
    ensures { Keeps (hand_over files.now table.now root starts.now set limit) n text.old map.old bytes.old text.new map.new bytes.new result }
{
    let k = at_most(n);
    let a = flatten::flatten(
        files,
        table,
        root,
        starts,
        set,
        limit,
        text,
        map,
        &mut rows[0..k],
        bytes,
    );
    let clears = clears_of(a.number, n);
    let t = table_of(rows, a.macros);
    Kept {
        table: t,
        clears,
        answer: a,
    }
}

// Flattens over rows where `n` records are lent.
fn flatten_rows(
    files: &[u8],
    table: &[[u32; 5]],
    root: usize,
    starts: &[[u32; 2]],
    set: usize,
    limit: usize,
    text: &mut [u8],
    map: &mut [u32],
    n: usize,
    bytes: &mut [u8],
) -> Kept
    ensures { Keeps (hand_over files.now table.now root starts.now set limit) n text.old map.old bytes.old text.new map.new bytes.new result }
{
    let mut rows = [[0u32; 4]; 256];
    flatten_in(
        files, table, root, starts, set, limit, text, map, n, &mut rows, bytes,
    )
}

// Refusal 1 touches nothing.
fn clears_of(number: usize, n: usize) -> usize
    ensures { result ≡ cond (eqb number 1) 0 n }
{
    if number == 1 {
        return 0;
    }
    n
}

// Look up over these rows, once the records of `t` stand there.
fn look_up_in<'a>(bytes: &'a [u8], t: Table, rows: &mut [[u32; 4]], name: &[u8]) -> &'a [u8]
    requires { (t.length ≤ 256) × (length t.rows ≡ 256) × (length rows.old ≡ 256) }
    ensures { Shows bytes.now (rows_of (take t.length t.rows)) name.now result.now }
{
    write_rows(t, rows);
    let n = t.length;
    macros::look_up(bytes, &rows[0..n], name)
}

// Look up over rows: an empty part if the records behind them are not zero.
fn look_up_rows<'a>(bytes: &'a [u8], t: Table, zero: bool, name: &[u8]) -> &'a [u8]
    requires { (t.length ≤ 256) × (length t.rows ≡ 256) }
    ensures { (zero ≡ true → Shows bytes.now (rows_of (take t.length t.rows)) name.now result.now) × (zero ≡ false → result.now ≡ []) }
{
    if !zero {
        return &bytes[0..0];
    }
    let mut rows = [[0u32; 4]; 256];
    look_up_in(bytes, t, &mut rows, name)
}

// Pass over these rows, once the records of `t` stand there.
fn pass_in(bytes: &[u8], t: Table, rows: &mut [[u32; 4]]) -> Answer
    requires { (t.length ≤ 256) × (length t.rows ≡ 256) × (length rows.old ≡ 256) }
    ensures { Passes bytes.now (rows_of (take t.length t.rows)) result }
{
    write_rows(t, rows);
    let n = t.length;
    pass::pass(bytes, &rows[0..n])
}

// Pass over rows: no definitions leave records of which those behind are not zero.
fn pass_rows(bytes: &[u8], t: Table, zero: bool) -> Answer
    requires { (t.length ≤ 256) × (length t.rows ≡ 256) }
    ensures { (zero ≡ true → Passes bytes.now (rows_of (take t.length t.rows)) result) × (zero ≡ false → result ≡ Foreign) }
{
    if !zero {
        return Answer::Foreign;
    }
    let mut rows = [[0u32; 4]; 256];
    pass_in(bytes, t, &mut rows)
}

// Flattens the files of the include table.
pub fn flatten(
    files: &[u8],
    table: &[[u32; 5]],
    root: usize,
    starts: &[[u32; 2]],
    set: usize,
    limit: usize,
    text: &mut [u8],
    map: &mut [u32],
    records: &mut [Record],
    bytes: &mut [u8],
) -> Flattened
    ensures { Flattens (hand_over files.now table.now root starts.now set limit) (lent text.old map.old (rows_of records.old) bytes.old) (lent text.new map.new (rows_of records.new) bytes.new) result }
{
    let n = records.len();
    let d = flatten_rows(files, table, root, starts, set, limit, text, map, n, bytes);
    let c = d.clears;
    clear(records, c);
    let t = d.table;
    fill(records, t);
    d.answer
}

// The part of the macro bytes that holds the stored form of the macro `name`; empty if it is not defined, or if no definitions
// leave such records and bytes.
pub fn look_up<'a>(bytes: &'a [u8], records: &[Record], name: &[u8]) -> &'a [u8]
    ensures { Shows bytes.now (rows_of records.now) name.now result.now }
{
    let t = load(records);
    let zero = rest_is_zero(records, 256);
    look_up_rows(bytes, t, zero, name)
}

// Whether the macros of a store pass.
pub fn pass(bytes: &[u8], records: &[Record]) -> Answer
    ensures { Passes bytes.now (rows_of records.now) result }
{
    let t = load(records);
    let zero = rest_is_zero(records, 256);
    pass_rows(bytes, t, zero)
}
