// The macros given on the command line that no file tests or uses.
use crate::saying::say_unused;
use lex::{in_definition, token_at};
use name_uses::Due;
use plan::{Item, Plan, Sources};
use spots::{directive_in, marks_past, past};
use std::alloc::{AllocError, Global};
use text::part_of;

// A macro given: its name as it is given and without a leading `\`, and whether a file tests or uses it.
#[derive(Clone, Copy)]
struct Given<'a> {
    word: &'a [u8],
    name: &'a [u8],
    used: bool,
}

fn given_macros<'a>(alloc: Global, plan: &'a Plan) -> Result<Vec<Given<'a>>, AllocError> {
    let mut all = Vec::new(alloc);
    for item in plan.items.iter() {
        if let Item::Macro(given) = item {
            all.push(Given {
                word: given.name(),
                name: given.plain_name(),
                used: false,
            })?;
        }
    }
    Ok(all)
}

fn use_name(name: &[u8], all: &mut [Given<'_>]) {
    for given in all.iter_mut() {
        if given.used {
            continue;
        }
        if given.name == name {
            given.used = true;
        }
    }
}

fn walk_uses(body: &[u8], all: &mut [Given<'_>]) {
    let mut at = 0;
    let mut marks = false;
    let mut due = Due::Nothing;
    while at < body.len() {
        let t = token_at(body, at, in_definition(marks));
        let d = directive_in(body, t);
        if due.is_use(t, d) {
            use_name(part_of(body, t.from, t.end), all);
        }
        due = due.after(body, t, d);
        marks = marks_past(marks, t);
        at = past(body, at, t.end);
    }
}

// Warns of each such macro; how many warnings that are.
pub(crate) fn warn_unused(
    alloc: Global,
    plan: &Plan,
    sources: &Sources,
) -> Result<usize, AllocError> {
    let mut all = given_macros(alloc, plan)?;
    for k in 0..sources.files.len() {
        walk_uses(sources.body(k), all.as_mut_slice());
    }
    let mut warned = 0usize;
    for given in all.iter() {
        if !given.used {
            say_unused(given.word);
            warned = warned.saturating_add(1);
        }
    }
    Ok(warned)
}
