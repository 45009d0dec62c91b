// Files and start macros added: bytes into the store, entries into the tables.
use inputs::{Unread, fail_at, open_input, read_open, read_pieces};
use messages::{Failure, complain};
use plan::{FileKind, GivenFile, Sources};
use std::io::{Input, Read};
use std::rt::Files;
use text::part_of;

// The most files.
const MOST_FILES: usize = 64;

// The most start macros: one more than flatten takes, so that more shows.
const MOST_STARTS: usize = 257;

fn complain_full(path: &[u8]) -> Failure {
    complain(path, b"the files are over 1,048,576 bytes in all");
    Failure::Told
}

// Reads standard input into the store. What stands there may give one message for each read and drop what a piece has no room
// for, so the piece is as long as what the store takes.
fn read_input<F: Read + Drop>(
    input: F,
    sources: &mut Sources,
    room: usize,
) -> Result<usize, Unread> {
    let mut piece = vec![in *sources.store.allocator(); 0u8; room]?;
    read_pieces(input, &mut sources.store, room, piece.as_mut_slice())
}

// Reads an open file into the store, behind its path, and enters it. Its name is the path but for its first `cut` bytes.
fn read_in<F: Read + Drop>(
    file: F,
    kind: FileKind,
    angled: bool,
    path: &[u8],
    cut: usize,
    sources: &mut Sources,
) -> Result<(), Failure> {
    let at = sources.store.len();
    sources.append(path)?;
    let end = sources.store.len();
    let room = sources.room();
    let read = match kind {
        FileKind::Input => read_input(file, sources, room),
        _ => read_open(file, &mut sources.store, room),
    };
    match read {
        Ok(_) => Ok(sources.enter(kind, angled, at, end, cut)?),
        Err(Unread::Full) => Err(complain_full(part_of(sources.store.as_slice(), at, end))),
        Err(Unread::Failed(error)) => {
            fail_at(part_of(sources.store.as_slice(), at, end), error);
            Err(Failure::Told)
        }
        Err(Unread::Memory) => Err(Failure::Memory),
    }
}

fn check_place(path: &[u8], sources: &Sources) -> Result<(), Failure> {
    if sources.files.len() < MOST_FILES {
        return Ok(());
    }
    complain(path, b"over 64 files");
    Err(Failure::Told)
}

// Reads the file at `path`, which a search found; its name is the path but for its first `cut` bytes.
pub fn read_found(
    files: &impl Files,
    path: &[u8],
    cut: usize,
    angled: bool,
    sources: &mut Sources,
) -> Result<(), Failure> {
    check_place(path, sources)?;
    match open_input(files, path) {
        Some(file) => read_in(file, FileKind::Found, angled, path, cut, sources),
        None => Err(Failure::Told),
    }
}

// The next entry is the root entry, where it is a root and there is none yet.
fn note_root(kind: FileKind, sources: &mut Sources) {
    if kind.is_root() & sources.root.is_none() {
        sources.root = Some(sources.files.len());
    }
}

// Adds a file that is given. A root is the root entry where the command makes none.
pub fn add_file(
    rt: &(impl Files + Input),
    given: &GivenFile,
    sources: &mut Sources,
) -> Result<(), Failure> {
    let path = given.path.as_slice();
    check_place(path, sources)?;
    note_root(given.kind, sources);
    if given.kind == FileKind::Input {
        return read_in(
            rt.reader(),
            given.kind,
            false,
            b"(standard input)",
            0,
            sources,
        );
    }
    let angled = given.kind == FileKind::Angled;
    let cut = path.len().saturating_sub(given.entry_name().len());
    match open_input(rt, path) {
        Some(file) => read_in(file, given.kind, angled, path, cut, sources),
        None => Err(Failure::Told),
    }
}

// Adds a start macro.
pub fn add_start(name: &[u8], sources: &mut Sources) -> Result<(), Failure> {
    if MOST_STARTS <= sources.starts.len() {
        complain(b"-D", b"over 256 macros");
        return Err(Failure::Told);
    }
    if sources.room() < name.len() {
        return Err(complain_full(b"-D"));
    }
    Ok(sources.add_start(name)?)
}
