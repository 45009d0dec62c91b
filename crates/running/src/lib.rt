// The run over files (document 01, "Directives"), token by token to its end: text and map written, macros and directive state kept.
#![tactic(auto)]

ghost use Rattle.std.specs.Prelude.{◌≡◌, ◌≤◌};
ghost use Rattle.store.specs.Buffers.{Stored};
ghost use Rattle.places.specs.Places.{place_of};
ghost use Rattle.blocks.specs.Stacks.{open_in, BlocksIn};
ghost use Rattle.copying.specs.Copying.{Copyable};
ghost use Rattle.steps.specs.Standing.{bufs};
ghost use Rattle.dispatch.specs.Going.{Works, Going};
ghost use Rattle.running.specs.Ending.{last_step, ReadFrom, AdvancesBy, FinishesBy};

use dispatch::special;
use handover::body_at;
use reading::{Reached, read_on};
use steps::stage::{Stage, Step, reached, refuse};

// The last stage of a run, and the refusal, or 0, with file and byte.
#[derive(Clone, Copy)]
pub struct Last {
    pub stage: Stage,
    pub number: usize,
    pub file: usize,
    pub byte: usize,
}

// The end of the run: 8 where a conditional is open.
fn end_run(conds: &[[usize; 6]], z: Stage) -> Step
    requires { BlocksIn conds.now z.blocks }
    ensures { result ≡ last_step z (open_in conds.now z.blocks.open) }
{
    let k = z.blocks;
    let n = k.open;
    if n == 0 {
        return Step::Ended(z, 0, 0, 0);
    }
    let v = conds[n - 1];
    Step::Ended(z, 8, v[0], v[1])
}

// What is copied or skipped from a stage on, and the conditional words on the way.
fn read_from(
    s: &[u8],
    conds: &mut [[usize; 6]],
    bytes: &[u8],
    records: &[[u32; 4]],
    text: &mut [u8],
    map: &mut [u32],
    z: Stage,
) -> Reached
    requires { (z.file ≤ 63) × Copyable s.now (place_of z.file 0) text.old map.old z.cursor z.spot × BlocksIn conds.old z.blocks × Stored bytes.now records.now z.macros }
    ensures { ReadFrom result s.now z bytes.now records.now conds.old conds.new text.old text.new map.old map.new }
{
    read_on(
        s, z.file, conds, bytes, records, z.macros, text, map, z.cursor, z.spot, z.blocks,
    )
}

// What is copied or skipped, the conditional words on the way, and the directive, usage or end behind them.
fn advance(
    files: &[u8],
    table: &[[u32; 5]],
    set: usize,
    limit: usize,
    bytes: &mut [u8],
    records: &mut [[u32; 4]],
    frames: &mut [[usize; 3]],
    conds: &mut [[usize; 6]],
    name: &mut [u8],
    form: &mut [u8],
    list: &mut [[u64; 9]],
    out: &mut [[u64; 9]],
    ranges: &mut [[usize; 4]],
    stack: &mut [u8],
    work: &mut [u8],
    quoted: &mut [u8],
    decimal: &mut [u8],
    text: &mut [u8],
    map: &mut [u32],
    z: Stage,
) -> Step
    requires { Going files.now table.now (bufs text.old map.old bytes.old records.old frames.old conds.old) z × Works list.old out.old ranges.old stack.old work.old quoted.old decimal.old name.old form.old }
    ensures { AdvancesBy result set limit files.now table.now (bufs text.old map.old bytes.old records.old frames.old conds.old) (bufs text.new map.new bytes.new records.new frames.new conds.new) z }
{
    if z.depth == 0 {
        return end_run(conds, z);
    }
    let s = body_at(files, table, z.file);
    let r = read_from(s, conds, bytes, records, text, map, z);
    match r {
        Reached::Upto(c, y, k, t, d) => special(
            d,
            files,
            table,
            s,
            t,
            set,
            limit,
            bytes,
            records,
            frames,
            name,
            form,
            list,
            out,
            ranges,
            stack,
            work,
            quoted,
            decimal,
            text,
            map,
            reached(z, c, y, k),
        ),
        Reached::Refused(c, y, k, n, p) => refuse(reached(z, c, y, k), n, p),
    }
}

// Runs to the end.
pub fn run_on(
    files: &[u8],
    table: &[[u32; 5]],
    set: usize,
    limit: usize,
    bytes: &mut [u8],
    records: &mut [[u32; 4]],
    frames: &mut [[usize; 3]],
    conds: &mut [[usize; 6]],
    name: &mut [u8],
    form: &mut [u8],
    list: &mut [[u64; 9]],
    out: &mut [[u64; 9]],
    ranges: &mut [[usize; 4]],
    stack: &mut [u8],
    work: &mut [u8],
    quoted: &mut [u8],
    decimal: &mut [u8],
    text: &mut [u8],
    map: &mut [u32],
    start: Stage,
) -> Last
    requires { Going files.now table.now (bufs text.old map.old bytes.old records.old frames.old conds.old) start × Works list.old out.old ranges.old stack.old work.old quoted.old decimal.old name.old form.old }
    ensures { FinishesBy result set limit files.now table.now (bufs text.old map.old bytes.old records.old frames.old conds.old) (bufs text.new map.new bytes.new records.new frames.new conds.new) start }
{
    let mut z = start;
    loop {
        let r = advance(
            files, table, set, limit, bytes, records, frames, conds, name, form, list, out, ranges,
            stack, work, quoted, decimal, text, map, z,
        );
        match r {
            Step::On(y) => {
                z = y;
                continue;
            }
            Step::Ended(y, n, f, b) => {
                return Last {
                    stage: y,
                    number: n,
                    file: f,
                    byte: b,
                };
            }
        }
    }
}
