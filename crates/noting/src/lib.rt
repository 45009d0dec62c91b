// The walk over the tokens of all files that notes their `include` lines and definitions.
#![tactic(auto)]

pub mod includes;
pub mod notes;

ghost use Rattle.std.specs.Prelude.{◌<◌, length};

use crate::includes::{Inclusion, take_include};
use crate::notes::{MOST_FILES, Notes, action_of};
use definition::extent_at;
use lex::{CONTINUATION, NEWLINE, Token, WHITE, in_definition, token_at};
use names::{DEFINE, INCLUDE};
use places::newlines_in;
use plan::Sources;
use spots::{Spot, directive_in, marks_past, past};
use std::alloc::Global;
use text::part_of;

fn is_line_end(t: Token) -> bool {
    (t.kind == NEWLINE) | (t.kind == CONTINUATION)
}

fn start_after(z: Spot, t: Token, next: usize) -> usize {
    if is_line_end(t) { next } else { z.start }
}

fn hidden_after(body: &[u8], z: Spot, t: Token, d: usize) -> usize {
    if (d != DEFINE) | (t.at < z.hidden) {
        return z.hidden;
    }
    extent_at(body, t.end).end
}

// Past the token `t`, which is the directive `d`.
fn step(body: &[u8], z: Spot, t: Token, d: usize) -> Spot
    requires { z.at < length body.now }
    ensures { z.at < result.at }
{
    let next = past(body, z.at, t.end);
    Spot {
        file: z.file,
        at: next,
        line: z
            .line
            .saturating_add(newlines_in(part_of(body, z.at, next))),
        start: start_after(z, t, next),
        fresh: is_line_end(t) | (z.fresh & (t.kind == WHITE)),
        marks: marks_past(z.marks, t),
        hidden: hidden_after(body, z, t, d),
    }
}

// Takes note of the directive `d`, the token `t`.
fn take<'a>(
    sources: &'a Sources,
    z: Spot,
    t: Token,
    d: usize,
    included: &mut [u32],
    notes: &mut Notes<'a>,
) {
    if t.at < z.hidden {
        return;
    }
    if d == INCLUDE {
        take_include(sources, z, t, included, &mut notes.inclusions);
    } else if let Some(action) = action_of(d) {
        notes.note(sources.body(z.file), z, t, action);
    }
}

// The first byte of a file.
fn start_of(file: usize) -> Spot {
    Spot {
        file,
        at: 0,
        line: 1,
        start: 0,
        fresh: true,
        marks: false,
        hidden: 0,
    }
}

fn walk_file<'a>(sources: &'a Sources, file: usize, included: &mut [u32], notes: &mut Notes<'a>) {
    let body = sources.body(file);
    let mut z = start_of(file);
    while z.at < body.len() {
        let t = token_at(body, z.at, in_definition(z.marks));
        let d = directive_in(body, t);
        take(sources, z, t, d, included, notes);
        z = step(body, z, t, d);
    }
}

// Walks over all files; `included` tells for each file where the first `include` of it stands, as an entry of the map, or 0.
pub fn walk_files<'a>(alloc: Global, sources: &'a Sources, included: &mut [u32]) -> Notes<'a> {
    let apart = Inclusion {
        late: false,
        head: None,
    };
    let mut notes = Notes {
        list: Vec::new(alloc),
        vague: Vec::new(alloc),
        stopped: false,
        lost: false,
        inclusions: [apart; MOST_FILES],
    };
    included.fill(0);
    for k in 0..sources.files.len() {
        walk_file(sources, k, included, &mut notes);
    }
    notes
}

#[cfg(test)]
mod tests {
    use super::*;
    use plan::FileKind;

    // A definition is noted, and the notes are settled.
    #[test]
    fn notes_a_definition(rt: HostRuntime) {
        let mut sources = Sources::new(rt.alloc());
        assert!(rt; sources.append(b"`define A\n").is_ok());
        assert!(rt; sources.enter(FileKind::Root, false, 0, 0, 0).is_ok());
        let mut included = [0u32; 1];
        let mut notes = walk_files(rt.alloc(), &sources, &mut included);
        notes.settle(&sources);
        assert_eq!(rt; notes.list.len(), 1);
        assert!(rt; !notes.stopped);
        assert!(rt; !notes.lost);
    }
}
