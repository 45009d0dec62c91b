// A file read on (document 01, "Directives"): tokens copied or skipped and conditional words carried out, up to anything else.
#![tactic(auto)]

ghost use Rattle.std.specs.Prelude.{◌≡◌, true, false, List, ℕ, ◌≤◌};
ghost use Rattle.definition.specs.Definitions.{Macro};
ghost use Rattle.store.specs.Buffers.{Holds, Stored};
ghost use Rattle.settings.specs.declared.Settings.{Settings};
ghost use Rattle.places.specs.Places.{place_of};
ghost use Rattle.blocks.specs.Stacks.{BlocksIn};
ghost use Rattle.handover.specs.Entries.{body_of};
ghost use Rattle.copying.specs.Copying.{Copyable};
ghost use Rattle.turns.specs.States.{Context, Frame};
ghost use Rattle.reading.specs.Reading.{StaysBy, ReachedBy, PassedBy};

use blocks::Blocks;
use choosing::choose;
use copying::{Copied, Cursor, copy_tokens, skip_tokens};
use lex::Token;
use names::{ENDIF, IFDEF, directive_of};
use places::place_of;
use text::part_of;
use writing::Spot;

// Where reading stands before a token that is neither copied nor skipped and no conditional word, with its directive; or
// refused, with the place. An enum and no `Result`, which is no plainer: both say where reading and writing stand.
#[derive(Clone, Copy)]
pub enum Reached {
    Upto(Cursor, Spot, Blocks, Token, usize),
    Refused(Cursor, Spot, Blocks, usize, usize),
}

// Tokens that are copied in taken text or skipped in ignored text, as far as they go.
fn pass_on(
    s: &[u8],
    base: u32,
    text: &mut [u8],
    map: &mut [u32],
    c: Cursor,
    y: Spot,
    taken: bool,
) -> Copied
    requires { Copyable s.now base text.old map.old c y }
    ensures { PassedBy taken result s.now base text.old text.new map.old map.new c y }
{
    if taken {
        return copy_tokens(s, base, text, map, c, y);
    }
    let r = skip_tokens(s, c);
    let e = r.cursor;
    let t = r.token;
    Copied::Upto(e, y, t)
}

// Behind a conditional word that ends at `e`, which holds no newline.
fn cursor_behind(c: Cursor, e: usize) -> Cursor
    ensures { result ≡ record { at = e; line = c.line; other = true; comment = false } }
{
    Cursor {
        at: e,
        line: c.line,
        other: true,
        comment: false,
    }
}

// Reads the file `s` on.
pub fn read_on(
    s: &[u8],
    file: usize,
    conds: &mut [[usize; 6]],
    bytes: &[u8],
    records: &[[u32; 4]],
    macros: usize,
    text: &mut [u8],
    map: &mut [u32],
    start: Cursor,
    spot: Spot,
    blocks: Blocks,
) -> Reached
    requires { (file ≤ 63) × Copyable s.now (place_of file 0) text.old map.old start spot × BlocksIn conds.old blocks × Stored bytes.now records.now macros }
    ensures { StaysBy result s.now file conds.new text.new map.new × ((a : Context) (fs : List Frame) (ms : List Macro) (st : Settings) (left : ℕ) → body_of a.store a.table file ≡ s.now → Holds ms bytes.now records.now macros → ReachedBy result s.now file a fs ms st left conds.old conds.new text.old text.new map.old map.new start spot blocks) }
{
    let base = place_of(file, 0);
    let mut c = start;
    let mut y = spot;
    let mut k = blocks;
    loop {
        let r = pass_on(s, base, text, map, c, y, k.taken);
        match r {
            Copied::Full(e, z, n) => {
                return Reached::Refused(e, z, k, n, e.at);
            }
            Copied::Upto(e, z, t) => {
                if t.bar != 0 {
                    return Reached::Refused(e, z, k, t.bar, t.at);
                }
                let d = directive_of(part_of(s, t.from, t.end));
                if (d < IFDEF) | (ENDIF < d) {
                    return Reached::Upto(e, z, k, t, d);
                }
                let x = choose(d, s, t, file, conds, bytes, records, macros, k);
                match x {
                    Ok((j, p)) => {
                        k = j;
                        c = cursor_behind(e, p);
                        y = z;
                    }
                    Err(f) => {
                        return Reached::Refused(e, z, k, f.number, f.place);
                    }
                }
            }
        }
    }
}
