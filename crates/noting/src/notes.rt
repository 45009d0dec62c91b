// The definitions that the walk met, noted in the order of files and lines.
ghost use Rattle.std.specs.Prelude.{◌≡◌, ◌≢◌, ℕ, [], slice_get, vec_len};
ghost use Rattle.noting.specs.Noted.{action_for, marked};

use crate::includes::{Inclusion, is_late};
use definition::{extent_at, head_at};
use directive::{Word, word_at, word_start};
use lex::{ESCAPED, NAME, Token, in_definition, token_at};
use names::{DEFINE, UNDEF, UNDEFINE_ALL};
use places::newlines_in;
use plan::Sources;
use spots::{Place, Spot};
use text::{part_of, peek};

// What a directive does to macros.
#[derive(Clone, Copy, PartialEq, Eq)]
pub enum Action {
    Define,
    Undefine,
    UndefineAll,
}

// How a note stands.
#[derive(Clone, Copy, PartialEq, Eq)]
pub enum Mark {
    Open,
    // its warning is written
    Told,
    // it is on the first line of its file
    First,
    // it may be carried out without a trace in the map
    Forgone,
}

// A directive: the line whose place in the map shows that it was carried out, its first byte, what it does, and its mark.
#[derive(Clone, Copy)]
pub struct Note {
    pub place: Place,
    pub at: usize,
    pub action: Action,
    pub mark: Mark,
}

// What the walk notes.
#[derive(Drop)]
pub struct Notes<'a> {
    pub list: Vec<Note>,
    // the names of macros of which nothing is said
    pub vague: Vec<&'a [u8]>,
    // the notes do not tell enough
    pub stopped: bool,
    // they do not since no memory was left
    pub lost: bool,
    // how each file is included
    pub inclusions: [Inclusion; MOST_FILES],
}

// The most files.
pub const MOST_FILES: usize = 64;

// The most notes, and the most vague names.
const MOST_NOTES: usize = 8192;

const MOST_VAGUE: usize = 256;

// A part of a file.
#[derive(Clone, Copy)]
struct Part {
    from: usize,
    end: usize,
}

// What the directive `d` does to macros, if it does.
pub fn action_of(d: usize) -> Option<Action>
    ensures { result ≡ action_for d }
{
    match d {
        DEFINE => Some(Action::Define),
        UNDEF => Some(Action::Undefine),
        UNDEFINE_ALL => Some(Action::UndefineAll),
        _ => None,
    }
}

// Where the word of the directive at `at` ends.
fn word_end(body: &[u8], at: usize) -> usize {
    token_at(body, at, in_definition(false)).end
}

fn nonempty(from: usize, end: usize) -> Option<Part> {
    if from < end {
        Some(Part { from, end })
    } else {
        None
    }
}

fn undef_name(body: &[u8], at: usize) -> Option<Part> {
    match word_at(body, at) {
        Word::Found(t) if (t.kind == NAME) | (t.kind == ESCAPED) => nonempty(t.from, t.end),
        _ => None,
    }
}

// The macro's name in a directive whose word ends at `at`, if it has one; empty where it is about all macros.
fn name_in(body: &[u8], at: usize, action: Action) -> Option<Part> {
    match action {
        Action::UndefineAll => Some(Part { from: at, end: at }),
        Action::Define => {
            let head = head_at(body, at);
            nonempty(head.from, head.end)
        }
        Action::Undefine => undef_name(body, at),
    }
}

// Where the line of a directive ends, whose word ends at `at` and whose name ends at `end`, if nothing else follows.
fn line_end(body: &[u8], at: usize, action: Action, end: usize) -> usize {
    if action == Action::Define {
        return extent_at(body, at).end;
    }
    word_start(body, end)
}

// The line that shows in the map: the last one where nothing is written before its newline.
fn key_of(body: &[u8], z: Spot, at: usize, end: usize) -> usize {
    if at != z.start {
        return z.line;
    }
    z.line.saturating_add(newlines_in(part_of(body, at, end)))
}

impl Note {
    // Where the word of the directive ends.
    pub fn word_end(self, sources: &Sources) -> usize {
        word_end(sources.body(self.place.file), self.at)
    }

    // The name of its macro.
    pub fn name(self, sources: &Sources) -> &[u8] {
        let body = sources.body(self.place.file);
        match name_in(body, word_end(body, self.at), self.action) {
            Some(name) => part_of(body, name.from, name.end),
            None => b"",
        }
    }
}

impl<'a> Notes<'a> {
    fn add(&mut self, note: Note) {
        if MOST_NOTES <= self.list.len() {
            self.stopped = true;
        } else if self.list.push(note).is_err() {
            self.lose();
        }
    }

    fn lose(&mut self)
        ensures { self.new.list ≡ self.old.list }
    {
        self.stopped = true;
        self.lost = true;
    }

    // A directive with that name may be carried out without a trace in the map: nothing is said of its macro.
    fn forgo(&mut self, name: &'a [u8], action: Action)
        ensures { self.new.list ≡ self.old.list }
    {
        if (action == Action::UndefineAll) | (MOST_VAGUE <= self.vague.len()) {
            self.stopped = true;
        } else if self.vague.push(name).is_err() {
            self.lose();
        }
    }

    // Notes the directive at `z`, the token `t`.
    pub fn note(&mut self, body: &'a [u8], z: Spot, t: Token, action: Action) {
        let Some(name) = name_in(body, t.end, action) else {
            return;
        };
        let end = line_end(body, t.end, action, name.end);
        if !z.fresh | (peek(body, end) != b'\n') {
            self.forgo(part_of(body, name.from, name.end), action);
            return;
        }
        let line = key_of(body, z, t.at, end);
        self.add(Note {
            place: Place { file: z.file, line },
            at: t.at,
            action,
            mark: if z.line == 1 { Mark::First } else { Mark::Open },
        });
    }

    pub fn set_mark(&mut self, i: usize, mark: Mark)
        ensures mark { slice_get self.new.list.items i ≡ marked mark (slice_get self.old.list.items i) }
        ensures others { (k : ℕ) → k ≢ i → slice_get self.new.list.items k ≡ slice_get self.old.list.items k }
        ensures count { vec_len self.new.list ≡ vec_len self.old.list }
        ensures rest { self.new ≡ record self.old { list = self.new.list } }
    {
        if let Some(note) = self.list.get_mut(i) {
            note.mark = mark;
        }
    }

    // Forgoes note `i` where it stands on the first line of a late file.
    fn settle_note(&mut self, sources: &'a Sources, i: usize)
        ensures { vec_len self.new.list ≡ vec_len self.old.list }
    {
        let Some(note) = self.list.get(i).copied() else {
            return;
        };
        if note.mark != Mark::First {
            return;
        }
        if !is_late(&self.inclusions, note.place.file) {
            self.set_mark(i, Mark::Open);
            return;
        }
        self.set_mark(i, Mark::Forgone);
        self.forgo(note.name(sources), note.action);
    }

    // Settles all notes, once it is known which files are late.
    pub fn settle(&mut self, sources: &'a Sources) {
        for i in 0..self.list.len() {
            self.settle_note(sources, i);
        }
    }
}
