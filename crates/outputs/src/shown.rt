// Macros shown as definitions, by their stored forms.
ghost use Rattle.std.specs.Prelude.{◌≤◌};

use crate::gathering::Gathering;
use genuine::{formal_end, formal_name, mark_at};
use macros::is_start_name;
use records::Record;
use std::io::{Result, Write};
use text::{part_of, peek, two_at};

// A text with `\` before each newline, as a definition has it.
fn write_continued<W: Write>(to: &mut Gathering<'_, W>, w: &[u8]) -> Result<()> {
    for (i, line) in w.split(|b| *b == b'\n').enumerate() {
        if i > 0 {
            to.bytes(b"\\\n")?;
        }
        to.bytes(line)?;
    }
    Ok(())
}

// A name, as a text has to write it.
fn write_name<W: Write>(to: &mut Gathering<'_, W>, w: &[u8]) -> Result<()> {
    if is_start_name(w) {
        return to.bytes(w);
    }
    to.bytes(b"\\")?;
    to.bytes(w)?;
    to.bytes(b" ")
}

// A default, with a space behind it where it may end in an escaped name.
fn write_default<W: Write>(to: &mut Gathering<'_, W>, w: &[u8]) -> Result<()> {
    write_continued(to, w)?;
    if w.contains(&b'\\') {
        to.bytes(b" ")?;
    }
    Ok(())
}

// The formal at `i` of a stored form, with its default.
fn write_formal<W: Write>(to: &mut Gathering<'_, W>, form: &[u8], i: usize) -> Result<()>
    requires { i ≤ 65536 }
{
    write_name(to, formal_name(form, i))?;
    let m = mark_at(form, i);
    if peek(form, m) == 0 {
        return Ok(());
    }
    to.bytes(b" = ")?;
    write_default(to, part_of(form, m + 3, m + 3 + two_at(form, m + 1)))
}

// The `count` formals at `at` of a stored form, in their list; where its text starts.
fn write_formals<W: Write>(
    to: &mut Gathering<'_, W>,
    form: &[u8],
    at: usize,
    count: u8,
) -> Result<usize> {
    let mut i = at;
    for k in 0..count {
        if 65536 < i {
            break;
        }
        to.bytes(if k == 0 { b"(".as_slice() } else { b", " })?;
        write_formal(to, form, i)?;
        i = formal_end(form, i);
    }
    if count != 0 {
        to.bytes(b")")?;
    }
    Ok(i)
}

// The text of a definition, with a space before it unless it is empty, and one behind it where `\` would continue the line.
fn write_text<W: Write>(to: &mut Gathering<'_, W>, w: &[u8]) -> Result<()> {
    if w.is_empty() {
        return Ok(());
    }
    to.bytes(b" ")?;
    write_continued(to, w)?;
    if w.ends_with(b"\\") {
        to.bytes(b" ")?;
    }
    Ok(())
}

// A macro as a definition of it, by its stored form and the length of its name.
fn write_macro<W: Write>(to: &mut Gathering<'_, W>, form: &[u8], name: usize) -> Result<()> {
    to.bytes(b"`define ")?;
    write_name(to, part_of(form, 0, name))?;
    let start = write_formals(to, form, name.saturating_add(1), peek(form, name))?;
    write_text(to, part_of(form, start, form.len()))?;
    to.bytes(b"\n")
}

// Writes one macro.
pub fn show_macro(to: &mut impl Write, form: &[u8], name: usize) -> Result<()> {
    let mut to = Gathering::new(to);
    write_macro(&mut to, form, name)?;
    to.write_held()
}

// Writes the first `count` macros.
pub fn write_defines(
    to: &mut impl Write,
    bytes: &[u8],
    records: &[Record; 4096],
    count: usize,
) -> Result<()> {
    let mut to = Gathering::new(to);
    for r in records.iter().take(count) {
        let end = r.text_start as usize + r.text_length as usize;
        let form = part_of(bytes, r.start as usize, end);
        write_macro(&mut to, form, r.name_length as usize)?;
    }
    to.write_held()
}
