// Files that are included but not given by name, sought in the current folder and in the folders of -I.
#![tactic(auto)]

use directive::{FileName, include_at};
use handover::entry_of;
use identity::{is_folder, of_path};
use lex::{GRAVE, in_file, token_at};
use messages::{Failure, complain};
use plan::{Item, Plan, Sources};
use plan_checks::clashes;
use sources::read_found;
use std::rt::Files;
use text::part_of;

// The name that an include asks for, and whether in angle brackets.
#[derive(Clone, Copy)]
pub struct Wanted<'a> {
    pub angled: bool,
    pub name: &'a [u8],
}

// What the include at `byte` of file `file` asks for.
pub fn wanted_at(sources: &Sources, file: usize, byte: usize) -> Option<Wanted<'_>> {
    let body = sources.body(file);
    let t = token_at(body, byte, in_file());
    if t.kind != GRAVE {
        return None;
    }
    match include_at(body, t.end).file {
        FileName::Unnamed => None,
        FileName::Quoted(a, e) => Some(Wanted {
            angled: false,
            name: part_of(body, a, e),
        }),
        FileName::Angled(a, e) => Some(Wanted {
            angled: true,
            name: part_of(body, a, e),
        }),
    }
}

// The same, where a search may help: the name is in no entry, and no `/` name in angle brackets.
fn sought_at(sources: &Sources, file: usize, byte: usize) -> Option<Wanted<'_>> {
    let wanted = wanted_at(sources, file, byte)?;
    if wanted.name.is_empty() | (wanted.angled & wanted.name.starts_with(b"/")) {
        return None;
    }
    let k = entry_of(
        sources.store.as_slice(),
        sources.table.as_slice(),
        u32::from(wanted.angled),
        wanted.name,
    );
    if k == sources.table.len() {
        Some(wanted)
    } else {
        None
    }
}

// Seeks the file in the folder `dir`, the current one where that is empty, and adds it, unless it is an output; whether it was added.
// Of a path, as much is taken as the store has room for.
fn seek_in(
    files: &impl Files,
    plan: &Plan,
    dir: &[u8],
    name: &[u8],
    angled: bool,
    sources: &mut Sources,
) -> Result<bool, Failure> {
    let mut path = Vec::from_slice(*sources.store.allocator(), dir)?;
    if !dir.is_empty() & !dir.ends_with(b"/") {
        path.push(b'/')?;
    }
    let cut = path.len();
    path.extend_from_slice(name)?;
    path.truncate(sources.room());
    let found = of_path(files, path.as_slice());
    if found.is_none() | is_folder(found) {
        return Ok(false);
    }
    if clashes(files, plan, found) {
        return Err(Failure::Clash);
    }
    read_found(files, path.as_slice(), cut, angled, sources)?;
    Ok(true)
}

// Seeks the file in the folders of -I, in their order, unless its name is a whole path.
fn seek_folders(
    files: &impl Files,
    plan: &Plan,
    name: &[u8],
    angled: bool,
    sources: &mut Sources,
) -> Result<bool, Failure> {
    if name.starts_with(b"/") {
        return Ok(false);
    }
    for item in plan.items.iter() {
        if let Item::Folder(dir) = item {
            if seek_in(files, plan, dir.as_slice(), name, angled, sources)? {
                return Ok(true);
            }
        }
    }
    Ok(false)
}

// Seeks the file that the include at `byte` of file `file` asks for: for `"n"` in the current folder first; whether it was added.
pub fn find_missing(
    files: &impl Files,
    plan: &Plan,
    sources: &mut Sources,
    file: usize,
    byte: usize,
) -> Result<bool, Failure> {
    let Some(wanted) = sought_at(sources, file, byte) else {
        return Ok(false);
    };
    let angled = wanted.angled;
    let name = Vec::from_slice(*sources.store.allocator(), wanted.name)?;
    if !angled {
        if seek_in(files, plan, b"", name.as_slice(), angled, sources)? {
            return Ok(true);
        }
    }
    seek_folders(files, plan, name.as_slice(), angled, sources)
}

// Says which file an include asks for that was not found.
pub fn say_missing(sources: &Sources, file: usize, byte: usize) {
    let Some(wanted) = sought_at(sources, file, byte) else {
        return;
    };
    complain(
        wanted.name,
        if wanted.angled {
            b"found neither by --angle nor in the folders of -I".as_slice()
        } else {
            b"found neither among the files given nor in the current folder and those of -I"
        },
    );
}
