// The flat text with a `line` directive before each line whose place does not follow that of the line before it.
ghost use Rattle.std.specs.Prelude.{◌<◌};

use crate::gathering::Gathering;
use lex::{NEWLINE, Token, in_file, token_at};
use places::newlines_in;
use plan::Sources;
use std::io::{Result, Write};
use text::part_of;

// The end of a token that stands at `at`, past it in any case.
fn past(t: Token, at: usize) -> usize
    requires { at < 18446744073709551615 }
    ensures { at < result }
{
    t.end.max(at + 1)
}

// Where the next line starts that begins between tokens, or the end: past the first newline from `at` on that is a token.
fn next_line(flat: &[u8], at: usize) -> usize
    requires { at < 18446744073709551615 }
    ensures { at < result }
{
    let mut i = at;
    while i < flat.len() {
        let t = token_at(flat, i, in_file());
        i = past(t, i);
        if t.kind == NEWLINE {
            return i;
        }
    }
    i.max(at + 1)
}

// Whether quotes can hold a path.
fn is_plain(path: &[u8]) -> bool {
    !path.iter().any(|b| matches!(*b, b'"' | b'\\' | b'\n'))
}

// The name of file `k` in a mark: its path, unless quotes cannot hold that.
fn mark_name(sources: &Sources, k: usize) -> &[u8] {
    let path = sources.path(k);
    let table = sources.table.as_slice();
    if is_plain(path) | (table.len() <= k) {
        return path;
    }
    handover::name_at(sources.store.as_slice(), table, k)
}

// A mark: the next line is that of the map's entry `place`.
fn write_mark<W: Write>(to: &mut Gathering<'_, W>, sources: &Sources, place: usize) -> Result<()> {
    to.bytes(b"`line ")?;
    to.number(place % 131072)?;
    to.bytes(b" \"")?;
    to.bytes(mark_name(sources, place / 131072))?;
    to.bytes(b"\" 0\n")
}

// The map's entry for a line.
fn entry_at(map: &[u32], line: usize) -> usize {
    match map.get(line) {
        Some(entry) => *entry as usize,
        None => 0,
    }
}

// The flat text with its marks. `place` is the map's entry that the next line has if nothing marks it.
pub fn write_marked(
    to: &mut impl Write,
    flat: &[u8],
    sources: &Sources,
    map: &[u32],
) -> Result<()> {
    let mut to = Gathering::new(to);
    let mut line: usize = 0;
    let mut place: usize = 0;
    let mut at = 0;
    while at < flat.len() {
        let end = next_line(flat, at);
        let here = entry_at(map, line);
        if here != place {
            write_mark(&mut to, sources, here)?;
        }
        let lines = part_of(flat, at, end);
        to.bytes(lines)?;
        let n = newlines_in(lines);
        line = line.saturating_add(n);
        place = here.saturating_add(n);
        at = end;
    }
    to.write_held()
}
