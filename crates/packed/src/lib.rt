// Packed buffers: bytes and records that lie at the front of a lent buffer without gaps.
#![tactic(auto)]

ghost use Rattle.std.specs.Prelude.{◌≡◌, List, [], ◌∷◌, ◌++◌, ℕ, ◌+◌, ◌-◌, ◌≤◌, ◌<◌, length, take, drop, get_or, replicate, set};
ghost use Rattle.std.proofs.Math.Seq.{paste};
ghost use Rattle.packed.specs.Splicing.{live_after, spliced};
ghost use Rattle.packed.specs.Records.{cut, numbers_of, blank_record, RecordIs, moved_by, moved_from};

// A macro's record: where its stored form starts, its name's length, where its text starts, its text's length.
#[derive(Clone, Copy)]
pub struct Record {
    pub start: usize,
    pub name: usize,
    pub text: usize,
    pub size: usize,
}

// Clears the bytes from `from` to before `to`.
pub fn clear(b: &mut [u8], from: usize, to: usize)
    requires { to ≤ length b.old }
    ensures { b.new ≡ paste b.old from (replicate (to - from) 0) (to - from) }
{
    b[from.min(to)..to].fill(0);
}

// Puts `form` in the place of the `old` bytes at `at`, of which `live` are live.
pub fn splice(b: &mut [u8], at: usize, old: usize, form: &[u8], live: usize)
    requires { (at + old ≤ live) × (live ≤ length b.old) × (live_after old form.now live ≤ length b.old) }
    ensures { b.new ≡ spliced 0 b.old at old form.now live }
{
    let end = at + form.len();
    b.copy_within(at + old..live, end);
    b[at..end].copy_from_slice(form);
    clear(b, live - old + form.len(), live);
}

fn wide(x: u32) -> usize
    ensures { (result ≡ x) × (result < 4294967296) }
{
    x as usize
}

// The record of four numbers.
fn record_of(v: [u32; 4]) -> Record
    ensures { RecordIs v result }
{
    Record {
        start: wide(v[0]),
        name: wide(v[1]),
        text: wide(v[2]),
        size: wide(v[3]),
    }
}

// Record `i`, all zero past the end.
pub fn read(records: &[[u32; 4]], i: usize) -> Record
    ensures { RecordIs (get_or records.now i blank_record) result }
{
    if records.len() <= i {
        return Record {
            start: 0,
            name: 0,
            text: 0,
            size: 0,
        };
    }
    record_of(records[i])
}

fn cut_to_32(x: usize) -> u32
    ensures { result ≡ cut x }
{
    (x % 4294967296) as u32
}

// The four numbers of a record.
fn numbers_of(r: Record) -> [u32; 4]
    ensures { result ≡ numbers_of r }
{
    [
        cut_to_32(r.start),
        cut_to_32(r.name),
        cut_to_32(r.text),
        cut_to_32(r.size),
    ]
}

// A start moved on by `more` and back by `less` bytes.
fn moved_start(x: u32, more: usize, less: usize) -> u32
    requires { more ≤ 65536 }
    ensures { result ≡ cut (x + more - less) }
{
    cut_to_32((x as usize + more).saturating_sub(less))
}

fn moved(v: [u32; 4], more: usize, less: usize) -> [u32; 4]
    requires { more ≤ 65536 }
    ensures { result ≡ moved_by more less v }
{
    [
        moved_start(v[0], more, less),
        v[1],
        moved_start(v[2], more, less),
        v[3],
    ]
}

// Moves the forms of the records from `from` to before `to`.
pub fn shift(records: &mut [[u32; 4]], from: usize, to: usize, more: usize, less: usize)
    requires { (to ≤ length records.old) × (more ≤ 65536) }
    ensures { records.new ≡ moved_from more less from to records.old }
{
    for i in from..to {
        records[i] = moved(records[i], more, less);
    }
}

// Puts a record in at `at`, before the last of `count` records.
pub fn insert(records: &mut [[u32; 4]], at: usize, r: Record, count: usize)
    requires { (at ≤ count) × (count < length records.old) }
    ensures { records.new ≡ spliced blank_record records.old at 0 (numbers_of r ∷ []) count }
{
    records.copy_within(at..count, at + 1);
    records[at] = numbers_of(r);
}

// Takes out the record at `at`, one of `count`.
pub fn remove(records: &mut [[u32; 4]], at: usize, count: usize)
    requires { (at < count) × (count ≤ length records.old) }
    ensures { records.new ≡ spliced blank_record records.old at 1 [] count }
{
    records.copy_within(at + 1..count, at);
    records[count - 1] = [0u32; 4];
}

// Writes a record in the place of the one at `at`.
pub fn replace(records: &mut [[u32; 4]], at: usize, r: Record)
    requires { at < length records.old }
    ensures { records.new ≡ set records.old at (numbers_of r) }
{
    records[at] = numbers_of(r);
}

// Clears the records from `from` to before `to`.
pub fn clear_records(records: &mut [[u32; 4]], from: usize, to: usize)
    requires { to ≤ length records.old }
    ensures { records.new ≡ paste records.old from (replicate (to - from) blank_record) (to - from) }
{
    records[from.min(to)..to].fill([0u32; 4]);
}
