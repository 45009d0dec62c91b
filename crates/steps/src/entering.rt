// Into an included file, and back out at its end.
ghost use Rattle.std.specs.Prelude.{◌<◌, ◌≤◌, length};
ghost use Rattle.directive.specs.Include.{include_at};
ghost use Rattle.copying.specs.Copying.{Reads};
ghost use Rattle.turns.specs.Acts.{include_act};
ghost use Rattle.steps.specs.Standing.{FramesBy, LeftBy, LeavesBy};

use crate::stage::{Stage, Step, behind, entered, refuse, with_spot};
use copying::Cursor;
use including::include;
use lex::Token;
use places::place_of;
use writing::{Wrote, write_whole};

// An include.
pub fn enter(
    files: &[u8],
    table: &[[u32; 5]],
    s: &[u8],
    t: Token,
    frames: &mut [[usize; 3]],
    z: Stage,
) -> Step
    requires { (0 < z.depth) × (z.depth ≤ 16) × (16 ≤ length frames.old) × Reads s.now 0 z.cursor }
    ensures { FramesBy result files.now table.now s.now t frames.old frames.new z (λ h. include_act h (include_at s.now t.end)) }
{
    let c = z.cursor;
    let r = include(files, table, s, t, c.other, z.depth);
    match r {
        Ok((i, e)) => {
            let y = behind(z, s, e);
            let k = y.cursor;
            frames[z.depth - 1] = [z.file, k.at, k.line];
            Step::On(entered(z, i))
        }
        Err(f) => refuse(z, f.number, f.place),
    }
}

// Goes back to the file around, or to none.
fn leave(frames: &[[usize; 3]], z: Stage) -> Step
    requires { (0 < z.depth) × (z.depth ≤ 16) × (16 ≤ length frames.now) }
    ensures { LeftBy result frames.now z }
{
    let n = z.depth - 1;
    if n == 0 {
        return Step::On(Stage { depth: n, ..z });
    }
    let v = frames[n - 1];
    Step::On(Stage {
        depth: n,
        file: v[0],
        cursor: Cursor {
            at: v[1],
            line: v[2],
            other: true,
            comment: false,
        },
        ..z
    })
}

// The end of a file: a newline is written behind a copied `//` comment.
pub fn end_file(frames: &[[usize; 3]], text: &mut [u8], map: &mut [u32], z: Stage) -> Step
    requires { (0 < z.depth) × (z.depth ≤ 16) × (16 ≤ length frames.now) × (z.file ≤ 63) × (z.cursor.line ≤ 65536) × (z.spot.written ≤ length text.old) × (z.spot.lines ≤ length map.old) }
    ensures { LeavesBy result frames.now text.old text.new map.old map.new z }
{
    let c = z.cursor;
    if !c.comment {
        return leave(frames, z);
    }
    let r = write_whole(b"\n", place_of(z.file, c.line), 1, text, map, z.spot);
    match r {
        Wrote::Upto(y) => leave(frames, with_spot(z, y)),
        Wrote::Full(k) => refuse(z, k, c.at),
    }
}
