// The definitions carried out once more along the map: macros redefined with another text, and `undef` of one that is not
// defined.
#![tactic(auto)]

mod comparing;
mod defined;
pub mod saying;

use crate::comparing::same_definition;
use crate::defined::{Defined, Macro};
use crate::saying::{say_byte, say_redefined, say_undefined};
use noting::notes::{Action, Mark, Note, Notes};
use plan::{Plan, Sources};
use spots::Place;
use std::alloc::Global;

// Warns of note `k`, a directive with that name, unless that was done before or the name is vague; whether it warns.
fn warn_note<'a>(sources: &'a Sources, name: &[u8], k: usize, notes: &mut Notes<'a>) -> bool {
    let Some(note) = notes.list.get(k).copied() else {
        return false;
    };
    if note.mark != Mark::Open {
        return false;
    }
    notes.set_mark(k, Mark::Told);
    if notes.vague.iter().any(|vague| *vague == name) {
        return false;
    }
    let file = note.place.file;
    say_byte(sources.path(file), sources.body(file), note.at);
    if note.action == Action::Define {
        say_redefined(name);
    } else {
        say_undefined(name);
    }
    true
}

// Whether a note's definition says the same as that of the note `old`, or as an empty one where there is none.
fn is_same_text(sources: &Sources, old: Option<Note>, note: Note) -> bool {
    let body = sources.body(note.place.file);
    let at = note.word_end(sources);
    match old {
        None => same_definition(b"", 0, body, at),
        Some(old) => {
            let from = old.word_end(sources);
            same_definition(sources.body(old.place.file), from, body, at)
        }
    }
}

// Carries out the `define` of note `k`; whether it warns.
fn define<'a>(
    sources: &'a Sources,
    k: usize,
    note: Note,
    defined: &mut Defined<'a>,
    notes: &mut Notes<'a>,
) -> bool {
    let name = note.name(sources);
    let Some(j) = defined.find(name) else {
        defined.add(Macro {
            name,
            note: Some(k),
        });
        return false;
    };
    let old = match defined.redefine(j, k) {
        Some(i) => notes.list.get(i).copied(),
        None => None,
    };
    !is_same_text(sources, old, note) && warn_note(sources, name, k, notes)
}

// Carries out the `undef` of note `k`; whether it warns.
fn undefine<'a>(
    sources: &'a Sources,
    k: usize,
    note: Note,
    defined: &mut Defined<'a>,
    notes: &mut Notes<'a>,
) -> bool {
    let name = note.name(sources);
    match defined.find(name) {
        Some(j) => {
            defined.remove(j);
            false
        }
        None => warn_note(sources, name, k, notes),
    }
}

// The note of the directive whose line is at `place`, if one is; the notes stand in the order of their places.
fn find_note(notes: &Notes<'_>, place: Place) -> Option<(usize, Note)> {
    let k = notes.list.partition_point(|note| note.place < place);
    match notes.list.get(k) {
        Some(note) if (note.place == place) & (note.mark != Mark::Forgone) => Some((k, *note)),
        _ => None,
    }
}

// Carries out what the line at `place` of the map shows; whether it warns.
fn carry_out<'a>(
    sources: &'a Sources,
    place: Place,
    defined: &mut Defined<'a>,
    notes: &mut Notes<'a>,
) -> bool {
    let Some((k, note)) = find_note(notes, place) else {
        return false;
    };
    match note.action {
        Action::Define => define(sources, k, note, defined, notes),
        Action::Undefine => undefine(sources, k, note, defined, notes),
        Action::UndefineAll => {
            defined.clear();
            false
        }
    }
}

// Warns of the definitions along the lines of the map; how many warnings that are. Notes that no memory was left for are lost.
pub fn warn_definitions<'a>(
    alloc: Global,
    plan: &'a Plan,
    sources: &'a Sources,
    map: &[u32],
    notes: &mut Notes<'a>,
) -> usize {
    let mut defined = Defined::start(alloc, plan);
    let mut warned = 0usize;
    for entry in map {
        if notes.stopped | defined.full | defined.lost {
            break;
        }
        if carry_out(sources, Place::of_entry(*entry), &mut defined, notes) {
            warned = warned.saturating_add(1);
        }
    }
    notes.lost = notes.lost | defined.lost;
    warned
}
