// One usage in a file expanded to its end (document 01, "Replacing"): tokens of the pending list are written or replaced until
// none is left.
#![tactic(auto)]

mod tokens;
pub mod usages;

ghost use Rattle.std.specs.Prelude.{◌≡◌, List, ◌<◌, ◌≤◌, length};
ghost use Rattle.definition.specs.Definitions.{Macro};
ghost use Rattle.store.specs.Buffers.{Holds};
ghost use Rattle.expand.specs.Standing.{outer, Lends, Within, written_to, Stands, SteppedBy, rest_of, stopped_at, Ends, Expands};

use packed::read;
use pending::{name_of, pend_of};
use tokens::write_token;
use usages::{accept, is_usage, put_first, replace_top, resolve};
use writing::{Spot, Wrote};

// Where an expansion stands: how many tokens are pending, the replacements and the deepest set so far, where writing stands.
#[derive(Clone, Copy)]
pub struct Stand {
    pub depth: usize,
    pub count: usize,
    pub deepest: usize,
    pub spot: Spot,
}

// The next stand, or the end: refused, or 0, with the place of 2 to 6. A Result would be no plainer: an end that nothing refuses is
// no error.
#[derive(Clone, Copy)]
pub enum Turn {
    On(Stand),
    Ended(usize, usize),
}

// The answer: the refusal, or 0, with the place of 2 to 6; where the file goes on behind the usage and its list; the
// replacements and the deepest set; where writing stands.
#[derive(Clone, Copy)]
pub struct Expanded {
    pub number: usize,
    pub place: usize,
    pub next: usize,
    pub count: usize,
    pub deepest: usize,
    pub spot: Spot,
}

// The stand behind a token that was written.
fn written_to(z: Stand, spot: Spot) -> Stand
    requires { 0 < z.depth }
    ensures { result ≡ written_to z spot }
{
    Stand {
        depth: z.depth - 1,
        count: z.count,
        deepest: z.deepest,
        spot,
    }
}

// Writes the first pending token, or replaces it if it is a usage.
fn step<'a>(
    s: &'a [u8],
    b: &'a [u8],
    records: &[[u32; 4]],
    macros: usize,
    file: &[u8],
    line: &[u8],
    place: u32,
    limit: usize,
    list: &mut [[u64; 9]],
    out: &mut [[u64; 9]],
    ranges: &mut [[usize; 4]],
    stack: &mut [u8],
    work: &mut [u8],
    text: &mut [u8],
    map: &mut [u32],
    z: Stand,
) -> Turn
    requires { Stands text.old map.old z × Lends s.now b.now records.now macros list.old out.old ranges.old stack.old × (65539 ≤ length work.old) }
    ensures { (ms : List Macro) → Holds ms b.now records.now macros → SteppedBy result (outer file.now line.now place) ms s.now b.now list.old list.new limit text.old text.new map.old map.new z }
{
    if z.depth == 0 {
        return Turn::Ended(0, 0);
    }
    let n = z.depth - 1;
    let p = pend_of(list[n]);
    if is_usage(s, b, p) {
        return replace_top(
            s,
            b,
            records,
            macros,
            name_of(s, b, p),
            p.set,
            limit,
            list,
            n,
            out,
            ranges,
            stack,
            z,
        );
    }
    let r = write_token(s, b, p, file, line, place, work, text, map, z.spot);
    match r {
        Wrote::Upto(y) => Turn::On(written_to(z, y)),
        Wrote::Full(k) => Turn::Ended(k, 0),
    }
}

fn answer(number: usize, place: usize, next: usize, z: Stand) -> Expanded
    ensures { result ≡ stopped_at number place next z }
{
    let p = z.spot;
    Expanded {
        number,
        place,
        next,
        count: z.count,
        deepest: z.deepest,
        spot: p,
    }
}

// Writes and replaces pending tokens until none is left or one is refused.
fn run<'a>(
    s: &'a [u8],
    b: &'a [u8],
    records: &[[u32; 4]],
    macros: usize,
    file: &[u8],
    line: &[u8],
    place: u32,
    limit: usize,
    next: usize,
    list: &mut [[u64; 9]],
    out: &mut [[u64; 9]],
    ranges: &mut [[usize; 4]],
    stack: &mut [u8],
    work: &mut [u8],
    text: &mut [u8],
    map: &mut [u32],
    start: Stand,
) -> Expanded
    requires { Stands text.old map.old start × Lends s.now b.now records.now macros list.old out.old ranges.old stack.old × (65539 ≤ length work.old) }
    ensures { (ms : List Macro) → Holds ms b.now records.now macros → Ends next text.old text.new map.old map.new start (rest_of (outer file.now line.now place) ms s.now b.now list.old limit text.old map.old start) result }
{
    let mut z = start;
    loop {
        let r = step(
            s, b, records, macros, file, line, place, limit, list, out, ranges, stack, work, text,
            map, z,
        );
        match r {
            Turn::On(y) => {
                z = y;
                continue;
            }
            Turn::Ended(k, p) => {
                return answer(k, p, next, z);
            }
        }
    }
}

// Expands the usage of `w` whose word ends at `at` of the file `s`.
pub fn expand<'a>(
    s: &'a [u8],
    at: usize,
    w: &[u8],
    b: &'a [u8],
    records: &[[u32; 4]],
    macros: usize,
    file: &[u8],
    line: &[u8],
    place: u32,
    limit: usize,
    list: &mut [[u64; 9]],
    out: &mut [[u64; 9]],
    ranges: &mut [[usize; 4]],
    stack: &mut [u8],
    work: &mut [u8],
    text: &mut [u8],
    map: &mut [u32],
    z: Stand,
) -> Expanded
    requires { (at ≤ length s.now) × Within text.old map.old z.spot × Lends s.now b.now records.now macros list.old out.old ranges.old stack.old × (65539 ≤ length work.old) }
    ensures { (ms : List Macro) → Holds ms b.now records.now macros → Expands (outer file.now line.now place) ms limit w.now s.now at text.old text.new map.old map.new z result }
{
    let c = resolve(b, records, macros, w, sets::empty());
    match c {
        Err(k) => answer(k, 0, 0, z),
        Ok(i) => {
            let q = read(records, i);
            let f = accept(s, b, q, list, 0, true, at, ranges, stack);
            match f {
                Ok((given, e)) => {
                    let t = put_first(s, b, q, i, list, ranges, given, limit, out, z);
                    match t {
                        Turn::On(y) => run(
                            s, b, records, macros, file, line, place, limit, e, list, out, ranges,
                            stack, work, text, map, y,
                        ),
                        Turn::Ended(k, p) => answer(k, p, e, z),
                    }
                }
                Err(f) => answer(f.number, f.place, 0, z),
            }
        }
    }
}
