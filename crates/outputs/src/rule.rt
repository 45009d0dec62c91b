// The rule for make that says from which files the text is made.
use crate::gathering::Gathering;
use plan::{FileKind, Item, Output, Plan, Sources};
use std::io::{Result, Write};

// A path as a rule has it.
fn write_path<W: Write>(to: &mut Gathering<'_, W>, path: &[u8]) -> Result<()> {
    for b in path {
        match *b {
            b' ' | b'#' => to.bytes(b"\\")?,
            b'$' => to.bytes(b"$")?,
            _ => {}
        }
        to.bytes(&[*b])?;
    }
    Ok(())
}

// A file that the text is made from.
fn write_used<W: Write>(to: &mut Gathering<'_, W>, path: &[u8]) -> Result<()> {
    to.bytes(b" \\\n ")?;
    write_path(to, path)
}

// Whether file `k` is a file on disk that the text is made from.
fn is_used(sources: &Sources, included: &[u32], k: usize) -> bool {
    match sources.kind(k) {
        Some(FileKind::Root | FileKind::Found) => true,
        Some(FileKind::Included | FileKind::Angled) => included.get(k).is_some_and(|n| *n != 0),
        _ => false,
    }
}

// The rule for the text: it needs the files that are used, and the lists of words.
pub fn write_rule(
    to: &mut impl Write,
    plan: &Plan,
    sources: &Sources,
    included: &[u32],
) -> Result<()> {
    let mut to = Gathering::new(to);
    write_path(&mut to, plan.outputs.path(Output::Text))?;
    to.bytes(b":")?;
    for k in 0..sources.files.len() {
        if is_used(sources, included, k) {
            write_used(&mut to, sources.path(k))?;
        }
    }
    for item in plan.items.iter() {
        if let Item::List(path) = item {
            write_used(&mut to, path.as_slice())?;
        }
    }
    to.bytes(b"\n")?;
    to.write_held()
}
