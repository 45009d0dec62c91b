// Files that are read: opened, and read whole behind what a `Vec` holds.
#![tactic(auto)]

ghost use Rattle.inputs.specs.declared.Unread.{Unread};
ghost use Rattle.std.specs.Prelude.{◌≡◌, ◌+◌, ◌<◌, ◌≤◌, IfOk, vec_len};
ghost use Rattle.std.specs.Io.{StartsWith};

use identity::text_of;
use messages::complain;
use std::alloc::AllocError;
use std::fmt::InlineText;
use std::fs::File;
use std::io::{Error, ErrorKind, Read, Result};
use std::rt::Files;

// Why a file was not read whole.
#[derive(Clone, Copy)]
pub enum Unread {
    // there is no room for more
    Full,
    // it cannot be read
    Failed(Error),
    // there is no memory left
    Memory,
}

impl From<AllocError> for Unread {
    ghost from_gives = { λ _ unread. unread ≡ Unread.Memory };

    fn from(_error: AllocError) -> Unread {
        Unread::Memory
    }
}

impl From<Error> for Unread {
    ghost from_gives = { λ error unread. unread ≡ Unread.Failed error };

    fn from(error: Error) -> Unread {
        Unread::Failed(error)
    }
}

// `arborstitch: PATH: ` and what the error means; of PATH its first line.
pub fn fail_at(path: &[u8], error: Error) {
    let all = InlineText::<128>::of(error);
    complain(path, words_of(all.as_str()).as_bytes());
}

// Whether an error says that the reader of a pipe went away.
pub fn is_gone(error: Error) -> bool {
    error.kind() == ErrorKind::BrokenPipe
}

// An error's text without the number that std puts behind it.
fn words_of(text: &str) -> &str {
    match text.split_once(" (os error ") {
        Some((words, _)) => words,
        None => text,
    }
}

// Opens the file of that path for reading.
fn open_file<R: Files>(files: &R, path: &[u8]) -> Result<R::File> {
    File::open(files, text_of(path)?)
}

// Opens the file of that path; none, with a message, where that fails.
pub fn open_input<R: Files>(files: &R, path: &[u8]) -> Option<R::File> {
    match open_file(files, path) {
        Ok(file) => Some(file),
        Err(error) => {
            fail_at(path, error);
            None
        }
    }
}

// Reads an open file to its end, each time at most a piece, behind what `out` holds, and closes it; how many bytes it has. It is
// Full where `most` bytes or more were read, since none of the room for `most` bytes is left then.
pub fn read_pieces<R: Read + Drop>(
    mut file: R,
    out: &mut Vec<u8>,
    most: usize,
    piece: &mut [u8],
) -> std::result::Result<usize, Unread>
    ensures kept { StartsWith out.new.items out.old.items }
    ensures added { IfOk result (λ n. vec_len out.new ≡ vec_len out.old + n) }
    ensures room_left { IfOk result (λ n. n < most) }
    ensures most { vec_len out.new ≤ vec_len out.old + most }
{
    let mut room = most;
    while room > 0 {
        let length = room.min(piece.len());
        let n = file.read(&mut piece[..length])?;
        if n == 0 {
            return Ok(most - room);
        }
        out.extend_from_slice(&piece[..n])?;
        room -= n;
    }
    Err(Unread::Full)
}

// The same with a piece of its own.
pub fn read_open<R: Read + Drop>(
    file: R,
    out: &mut Vec<u8>,
    most: usize,
) -> std::result::Result<usize, Unread>
    ensures kept { StartsWith out.new.items out.old.items }
    ensures added { IfOk result (λ n. vec_len out.new ≡ vec_len out.old + n) }
    ensures room_left { IfOk result (λ n. n < most) }
    ensures most { vec_len out.new ≤ vec_len out.old + most }
{
    let mut piece = [0u8; 16384];
    read_pieces(file, out, most, &mut piece)
}
