// Where a run stands, and the small steps from one stage to the next.
ghost use Rattle.std.specs.Prelude.{◌≡◌, ◌≤◌};
ghost use Rattle.copying.specs.Cursors.{cursor_behind};
ghost use Rattle.copying.specs.Copying.{Reads};
ghost use Rattle.steps.specs.Standing.{ended_at, with_cursor, with_spot, entered_at, expanded_to, reached_at};

use blocks::Blocks;
use copying::Cursor;
use expand::Expanded;
use places::newlines_in;
use settings::Settings;
use text::part_of;
use writing::Spot;

// Where a run stands: the open files, the innermost with its cursor; the open conditionals; the macros; the directive state;
// where writing stands; the replacements and the deepest set so far.
#[derive(Clone, Copy)]
pub struct Stage {
    pub depth: usize,
    pub file: usize,
    pub cursor: Cursor,
    pub blocks: Blocks,
    pub macros: usize,
    pub settings: Settings,
    pub spot: Spot,
    pub count: usize,
    pub deepest: usize,
}

// The next stage, or the end: refused, or 0, with file and byte.
#[derive(Clone, Copy)]
pub enum Step {
    On(Stage),
    Ended(Stage, usize, usize, usize),
}

pub fn refuse(z: Stage, n: usize, byte: usize) -> Step
    ensures { result ≡ ended_at z n z.file byte }
{
    Step::Ended(z, n, z.file, byte)
}

pub fn with_spot(z: Stage, y: Spot) -> Stage
    ensures { result ≡ with_spot z y }
{
    Stage { spot: y, ..z }
}

// The cursor behind a directive or a usage that ends at `e`.
fn cursor_behind(s: &[u8], c: Cursor, e: usize) -> Cursor
    requires { Reads s.now 0 c }
    ensures { result ≡ cursor_behind s.now e c }
{
    Cursor {
        at: e,
        line: c.line + newlines_in(part_of(s, c.at, e)),
        other: true,
        comment: false,
    }
}

// The stage behind a directive or a usage that ends at `e`.
pub fn behind(z: Stage, s: &[u8], e: usize) -> Stage
    requires { Reads s.now 0 z.cursor }
    ensures { result ≡ with_cursor z (cursor_behind s.now e z.cursor) }
{
    Stage {
        cursor: cursor_behind(s, z.cursor, e),
        ..z
    }
}

// The stage at the start of file `i`, included here.
pub fn entered(z: Stage, i: usize) -> Stage
    requires { z.depth ≤ 16 }
    ensures { result ≡ entered_at z i }
{
    Stage {
        depth: z.depth + 1,
        file: i,
        cursor: Cursor {
            at: 0,
            line: 1,
            other: false,
            comment: false,
        },
        ..z
    }
}

// The stage behind what a usage wrote and counted.
pub fn expanded(z: Stage, r: Expanded) -> Stage
    ensures { result ≡ expanded_to z r }
{
    Stage {
        spot: r.spot,
        count: r.count,
        deepest: r.deepest,
        ..z
    }
}

// The stage where reading stopped.
pub fn reached(z: Stage, c: Cursor, y: Spot, k: Blocks) -> Stage
    ensures { result ≡ reached_at z c y k }
{
    Stage {
        cursor: c,
        spot: y,
        blocks: k,
        ..z
    }
}
