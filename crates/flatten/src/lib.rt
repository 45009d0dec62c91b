// Flatten (document 01): files to one text with its map, the macros and the directive state, or one refusal.
#![tactic(auto)]

ghost use Rattle.std.specs.Prelude.{◌≡◌, List, ℕ};
ghost use Rattle.definition.specs.Definitions.{Macro};
ghost use Rattle.store.specs.Buffers.{Holds};
ghost use Rattle.macros.specs.Starting.{started};
ghost use Rattle.turns.specs.Runs.{line_of, not_taken};
ghost use Rattle.flatten.specs.Flattening.{lent, hand_over, answer_of, answer_from, start_stage, Startable, RunLeaves, Flattens};

use blocks::Blocks;
use copying::Cursor;
use handover::{body_at, is_sound};
use macros::define_starts;
use places::line_at;
use running::{Last, run_on};
use settings::{Settings, reset_to};
use steps::stage::Stage;
use store::{start_of, zero_store};
use writing::Spot;

// The answer: the refusal, or 0, with its place; the lengths of what stands in text, map, records and macro bytes; the
// replacements and the deepest nesting; the directive state.
#[derive(Clone, Copy)]
pub struct Flattened {
    pub number: usize,
    pub file: usize,
    pub line: usize,
    pub byte: usize,
    pub written: usize,
    pub lines: usize,
    pub macros: usize,
    pub stored: usize,
    pub count: usize,
    pub deepest: usize,
    pub settings: Settings,
}

// The line of a refusal: 0 where there is none.
fn refused_line(files: &[u8], table: &[[u32; 5]], n: usize, f: usize, b: usize) -> usize
    ensures { result ≡ line_of files.now table.now n f b }
{
    if n == 0 {
        return 0;
    }
    if table.len() <= f {
        return 1;
    }
    line_at(body_at(files, table, f), b)
}

fn answer(files: &[u8], table: &[[u32; 5]], records: &[[u32; 4]], l: Last) -> Flattened
    ensures { (ms : List Macro) (b : List ℕ) → Holds ms b records.now l.stage.macros → result ≡ answer_from files.now table.now ms l }
{
    let z = l.stage;
    let y = z.spot;
    let s = z.settings;
    Flattened {
        number: l.number,
        file: l.file,
        line: refused_line(files, table, l.number, l.file, l.byte),
        byte: l.byte,
        written: y.written,
        lines: y.lines,
        macros: z.macros,
        stored: start_of(records, z.macros, z.macros),
        count: z.count,
        deepest: z.deepest,
        settings: s,
    }
}

// The stage at the start of file `root`, with so many macros.
fn started_at(root: usize, set: usize, macros: usize) -> Stage
    ensures { result ≡ start_stage root set macros }
{
    Stage {
        depth: 1,
        file: root,
        cursor: Cursor {
            at: 0,
            line: 1,
            other: false,
            comment: false,
        },
        blocks: Blocks {
            open: 0,
            taken: true,
        },
        macros,
        settings: reset_to(set),
        spot: Spot {
            written: 0,
            lines: 0,
            fresh: true,
        },
        count: 0,
        deepest: 0,
    }
}

// Runs from a store that holds the start macros.
fn run(
    files: &[u8],
    table: &[[u32; 5]],
    root: usize,
    set: usize,
    limit: usize,
    macros: usize,
    text: &mut [u8],
    map: &mut [u32],
    records: &mut [[u32; 4]],
    bytes: &mut [u8],
    name: &mut [u8],
    form: &mut [u8],
) -> Flattened
    requires { Startable files.now table.now root bytes.old records.old macros name.old form.old }
    ensures { (starts : List (List ℕ)) → Holds (started files.now starts) bytes.old records.old macros → RunLeaves (hand_over files.now table.now root starts set limit) (lent text.old map.old records.old bytes.old) (lent text.new map.new records.new bytes.new) result }
{
    let mut frames = [[0usize; 3]; 16];
    let mut conds = [[0usize; 6]; 32];
    let mut list = [[0u64; 9]; 1024];
    let mut out = [[0u64; 9]; 1024];
    let mut ranges = [[0usize; 4]; 256];
    let mut stack = [0u8; 16384];
    let mut work = [0u8; 65539];
    let mut quoted = [0u8; 257];
    let mut decimal = [0u8; 6];
    let l = run_on(
        files,
        table,
        set,
        limit,
        bytes,
        records,
        &mut frames,
        &mut conds,
        name,
        form,
        &mut list,
        &mut out,
        &mut ranges,
        &mut stack,
        &mut work,
        &mut quoted,
        &mut decimal,
        text,
        map,
        started_at(root, set, macros),
    );
    answer(files, table, records, l)
}

fn not_taken() -> Flattened
    ensures { result ≡ answer_of not_taken }
{
    Flattened {
        number: 1,
        file: 0,
        line: 0,
        byte: 0,
        written: 0,
        lines: 0,
        macros: 0,
        stored: 0,
        count: 0,
        deepest: 0,
        settings: reset_to(0),
    }
}

// Flattens the files of the include table.
pub fn flatten(
    files: &[u8],
    table: &[[u32; 5]],
    root: usize,
    starts: &[[u32; 2]],
    set: usize,
    limit: usize,
    text: &mut [u8],
    map: &mut [u32],
    records: &mut [[u32; 4]],
    bytes: &mut [u8],
) -> Flattened
    ensures { Flattens (hand_over files.now table.now root starts.now set limit) (lent text.old map.old records.old bytes.old) (lent text.new map.new records.new bytes.new) result }
{
    if !is_sound(
        files,
        table,
        root,
        starts,
        set,
        text.len(),
        records.len(),
        bytes.len(),
    ) {
        return not_taken();
    }
    let mut name = [0u8; 1025];
    let mut form = [0u8; 65536];
    zero_store(bytes, records);
    let n = define_starts(files, starts, bytes, records, &mut form);
    run(
        files, table, root, set, limit, n, text, map, records, bytes, &mut name, &mut form,
    )
}
