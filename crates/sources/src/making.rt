// The root entry that the command makes: a `define` line for each macro with a value, then an `include` line for each root.
use definition::extent_at;
use messages::{Failure, complain};
use plan::{Command, FileKind, GivenMacro, Item, Plan, Sources};
use std::alloc::AllocError;
use text::part_of;

// Whether `w` is a definition that ends at the newline at its end, so that it takes nothing of what follows.
fn is_whole(w: &[u8]) -> bool {
    !w.is_empty() & (extent_at(w, 7).end == w.len().saturating_sub(1))
}

fn put_define(name: &[u8], value: &[u8], out: &mut Vec<u8>) -> Result<(), AllocError> {
    out.extend_from_slice(b"`define ")?;
    out.extend_from_slice(name)?;
    out.extend_from_slice(b" ")?;
    out.extend_from_slice(value)?;
    out.extend_from_slice(b"\n")
}

fn put_include(name: &[u8], out: &mut Vec<u8>) -> Result<(), AllocError> {
    out.extend_from_slice(b"`include \"")?;
    out.extend_from_slice(name)?;
    out.extend_from_slice(b"\"\n")
}

// Whether a macro may be defined by that name.
fn is_macro_name(name: &[u8]) -> bool {
    macros::is_start_name(name) && names::directive_of(macros::plain_name(name)) == 0
}

fn complain_macro(w: &[u8]) -> Failure {
    complain(
        w,
        b"-D takes NAME or NAME=VALUE: a name that is no directive's, a value that is whole on one line",
    );
    Failure::Told
}

// The line of a macro, if it has a value.
fn put_value(given: &GivenMacro, out: &mut Vec<u8>) -> Result<(), Failure> {
    let name = given.name();
    if !is_macro_name(name) {
        return Err(complain_macro(given.word.as_slice()));
    }
    let Some(value) = given.value() else {
        return Ok(());
    };
    let at = out.len();
    put_define(name, value, out)?;
    if !is_whole(part_of(out.as_slice(), at, out.len())) {
        return Err(complain_macro(given.word.as_slice()));
    }
    Ok(())
}

// The lines of all macros with values.
fn put_values(plan: &Plan, out: &mut Vec<u8>) -> Result<(), Failure> {
    for item in plan.items.iter() {
        if let Item::Macro(given) = item {
            put_value(given, out)?;
        }
    }
    Ok(())
}

// The lines of all roots.
fn put_roots(plan: &Plan, out: &mut Vec<u8>) -> Result<(), AllocError> {
    for item in plan.items.iter() {
        if let Item::File(file) = item {
            match file.kind {
                FileKind::Input => put_include(b"(standard input)", out)?,
                FileKind::Root => put_include(file.entry_name(), out)?,
                _ => {}
            }
        }
    }
    Ok(())
}

// Whether the command makes the root entry: it has several roots, or macros with values.
fn is_needed(plan: &Plan) -> bool {
    (plan.command != Command::Classify) & ((plan.count_roots() != 1) | plan.has_values())
}

// Makes the root entry where one is needed; a message is written where a macro's name or value is bad.
pub fn make_entry(plan: &Plan, sources: &mut Sources) -> Result<(), Failure> {
    let mut body = Vec::new(*sources.store.allocator());
    put_values(plan, &mut body)?;
    if !is_needed(plan) {
        return Ok(());
    }
    put_roots(plan, &mut body)?;
    sources.append(b"(command line)")?;
    let end = sources.store.len();
    sources.append(body.as_slice())?;
    sources.root = Some(0);
    Ok(sources.enter(FileKind::Made, false, 0, end, 0)?)
}
