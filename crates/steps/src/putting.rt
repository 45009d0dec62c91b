// What is written for a directive that is kept as state, for the two `__` words and for a usage.
ghost use Rattle.std.specs.Prelude.{List, ℕ, ◌≤◌, length};
ghost use Rattle.copying.specs.Copying.{Reads};
ghost use Rattle.turns.specs.Acts.{spells, expands, keep_act};
ghost use Rattle.steps.specs.Standing.{WritesOver, WritesBy, place_act, PlaceLent, UsageLent};

use crate::stage::{Stage, Step, behind, expanded, refuse, with_spot};
use expand::{Stand, expand};
use handover::name_at;
use keeping::keep;
use lex::Token;
use names::{FILE_WORD, LINE_WORD};
use places::{place_of, quote, write_digits};
use text::part_of;
use writing::{Wrote, write_whole};

// A directive that is copied and kept as state.
pub fn keep_on(
    d: usize,
    s: &[u8],
    t: Token,
    set: usize,
    text: &mut [u8],
    map: &mut [u32],
    z: Stage,
) -> Step
    requires { (z.file ≤ 63) × (z.spot.written ≤ length text.old) × (z.spot.lines ≤ length map.old) × Reads s.now 0 z.cursor }
    ensures { (fs : List ℕ) (es : List (List ℕ)) (limit : ℕ) → WritesBy result fs es set limit s.now t text.old text.new map.old map.new z (λ h. keep_act d h) }
{
    let c = z.cursor;
    let r = keep(
        d,
        s,
        t,
        set,
        place_of(z.file, c.line),
        z.settings,
        text,
        map,
        z.spot,
    );
    match r {
        Ok((x, y, e)) => Step::On(Stage {
            settings: x,
            ..behind(with_spot(z, y), s, e)
        }),
        Err(f) => refuse(z, f.number, f.place),
    }
}

// What one of the two `__` words writes.
fn write_word(s: &[u8], t: Token, w: &[u8], text: &mut [u8], map: &mut [u32], z: Stage) -> Step
    requires { (z.file ≤ 63) × (z.spot.written ≤ length text.old) × (z.spot.lines ≤ length map.old) × Reads s.now 0 z.cursor }
    ensures { (fs : List ℕ) (es : List (List ℕ)) (set limit : ℕ) → WritesBy result fs es set limit s.now t text.old text.new map.old map.new z (λ h. spells w.now) }
{
    let c = z.cursor;
    let r = write_whole(w, place_of(z.file, c.line), 0, text, map, z.spot);
    match r {
        Wrote::Upto(y) => Step::On(behind(with_spot(z, y), s, t.end)),
        Wrote::Full(k) => refuse(z, k, t.at),
    }
}

// `__FILE__` or `__LINE__`; any other directive is refused.
pub fn write_place_word(
    d: usize,
    files: &[u8],
    table: &[[u32; 5]],
    s: &[u8],
    t: Token,
    quoted: &mut [u8],
    decimal: &mut [u8],
    text: &mut [u8],
    map: &mut [u32],
    z: Stage,
) -> Step
    requires { PlaceLent files.now table.now s.now quoted.old decimal.old text.old map.old z }
    ensures { (set limit : ℕ) → WritesBy result files.now table.now set limit s.now t text.old text.new map.old map.new z (λ h. place_act d h) }
{
    if d == FILE_WORD {
        let n = quote(name_at(files, table, z.file), quoted);
        return write_word(s, t, part_of(quoted, 0, n), text, map, z);
    }
    if d == LINE_WORD {
        let c = z.cursor;
        let n = write_digits(c.line, 6, decimal);
        return write_word(s, t, part_of(decimal, 0, n), text, map, z);
    }
    refuse(z, 7, t.at)
}

// A usage.
pub fn usage<'a>(
    files: &[u8],
    table: &[[u32; 5]],
    s: &'a [u8],
    t: Token,
    limit: usize,
    bytes: &'a [u8],
    records: &[[u32; 4]],
    list: &mut [[u64; 9]],
    out: &mut [[u64; 9]],
    ranges: &mut [[usize; 4]],
    stack: &mut [u8],
    work: &mut [u8],
    quoted: &mut [u8],
    decimal: &mut [u8],
    text: &mut [u8],
    map: &mut [u32],
    z: Stage,
) -> Step
    requires { UsageLent files.now table.now s.now t bytes.now records.now list.old out.old ranges.old stack.old work.old quoted.old decimal.old text.old map.old z }
    ensures { (set : ℕ) → WritesOver result files.now table.now set limit s.now t bytes.now records.now text.old text.new map.old map.new z (λ h. expands) }
{
    let c = z.cursor;
    let q = quote(name_at(files, table, z.file), quoted);
    let d = write_digits(c.line, 6, decimal);
    let y = z.spot;
    let r = expand(
        s,
        t.end,
        part_of(s, t.from, t.end),
        bytes,
        records,
        z.macros,
        part_of(quoted, 0, q),
        part_of(decimal, 0, d),
        place_of(z.file, c.line),
        limit,
        list,
        out,
        ranges,
        stack,
        work,
        text,
        map,
        Stand {
            depth: 0,
            count: z.count,
            deepest: z.deepest,
            spot: y,
        },
    );
    let x = expanded(z, r);
    if r.number == 0 {
        return Step::On(behind(x, s, r.next));
    }
    if r.number < 7 {
        return refuse(x, r.number, r.place);
    }
    refuse(x, r.number, t.at)
}
