// An output opened, closed, put in place or given up.
ghost use Rattle.std.specs.Prelude.{◌≡◌, ◌≢◌, ℕ, IsTrue, IsOk, IsErr, OnOk, OnErr};

use crate::paths::{MadePath, new_path, real_path};
use crate::sink::{Sink, settle};
use crate::targets::{is_special, is_standard};
use identity::{Identity, is_regular, is_same, of_descriptor, of_path, text_of};
use inputs::is_gone;
use messages::{Failure, STDERR_FILENO, STDOUT_FILENO, WRAPPER};
use std::alloc::Alloc;
use std::fs;
use std::fs::{File, OpenOptions, Permissions};
use std::io::{Error, ErrorKind};
use std::os::unix::fs::PermissionsExt;
use std::random::RandomSource;
use std::rt::Files;

// Linux's numbers of two errors: the file exists; too many links.
const EEXIST: i32 = 17;

const ELOOP: i32 = 40;

// How an output is written.
#[derive(Clone, Copy)]
enum Way {
    // not at all
    Not,
    // through a descriptor that is open
    Open,
    // as it is
    Direct,
    // by a new file with that number in its name
    New { number: u32 },
    // by a new file that took its name
    Placed { inode: Option<u64> },
}

// An output and how it is written.
#[derive(Clone, Copy)]
pub struct OutputFile<'a> {
    path: &'a [u8],
    way: Way,
}

impl<'a> OutputFile<'a> {
    pub fn new(path: &'a [u8]) -> OutputFile<'a>
        ensures path { result.path.now ≡ path.now }
        ensures way { result.way ≡ Way.Not }
    {
        OutputFile {
            path,
            way: Way::Not,
        }
    }

    // Opens it; a message is written where that fails.
    pub fn open(&mut self, rt: &HostRuntime) -> Result<Sink, Failure>
        ensures path { self.new.path ≡ self.old.path }
        ensures closed { OnErr result (self.new.way ≡ Way.Not) }
    {
        self.way = Way::Not;
        match open_path(rt, self.path) {
            Ok((way, to)) => {
                self.way = way;
                Ok(to)
            }
            Err(error) => Err(fail_at(self.path, error)),
        }
    }

    // Closes it, as it was written so; a message is written where it was not, unless its reader went away.
    pub fn close(&self, to: Sink, written: Result<(), Error>) -> Result<(), Failure>
        ensures unwritten { IsErr written → IsErr result }
        ensures open { IsOk written → self.now.way ≡ Way.Open → IsOk result }
        ensures direct { IsOk written → self.now.way ≡ Way.Direct → IsOk result }
    {
        let settled = match (written, self.way) {
            (Ok(()), Way::New { .. }) => settle(to),
            _ => written,
        };
        match settled {
            Ok(()) => Ok(()),
            Err(error) if is_gone(error) => Err(Failure::Gone),
            Err(error) => Err(fail_at(self.path, error)),
        }
    }

    // Its new file takes its name.
    pub fn place(&mut self, rt: &(impl Files + Alloc)) -> Result<(), Failure>
        ensures path { self.new.path ≡ self.old.path }
        ensures placed { OnOk result ((number : ℕ) → self.new.way ≢ Way.New number) }
        // so that `discard` still removes the new file
        ensures unplaced { OnErr result (self.new.way ≡ self.old.way) }
    {
        let Way::New { number } = self.way else {
            return Ok(());
        };
        let real = real_path(rt, self.path).unwrap_or(MadePath::of(b""));
        let made = new_path(real.as_slice(), number);
        let inode = inode_of(rt, made.as_slice());
        match rename(rt, made.as_slice(), real.as_slice()) {
            Ok(()) => {
                self.way = Way::Placed { inode };
                Ok(())
            }
            Err(error) => Err(fail_at(self.path, error)),
        }
    }

    // Whether it is still the file that was put in place, and not one of another run.
    pub fn stands(&self, files: &impl Files) -> bool
        ensures open { self.now.way ≡ Way.Open → IsTrue result }
        ensures direct { self.now.way ≡ Way.Direct → IsTrue result }
    {
        match self.way {
            Way::Placed { inode } => inode_of(files, self.path) == inode,
            _ => true,
        }
    }

    // Whether it is a file that can be written once more: not a device, nor an open descriptor.
    pub fn is_repeatable(&self) -> bool
        ensures open { IsTrue result → self.now.way ≢ Way.Open }
        ensures direct { IsTrue result → self.now.way ≢ Way.Direct }
    {
        matches!(self.way, Way::Not | Way::Placed { .. })
    }

    // Removes its new file, if there is one.
    pub fn discard(&mut self, rt: &(impl Files + Alloc))
        ensures path { self.new.path ≡ self.old.path }
        ensures removed { (number : ℕ) → self.new.way ≢ Way.New number }
    {
        if let Way::New { number } = self.way {
            let _ = remove_new(rt, self.path, number);
            self.way = Way::Not;
        }
    }
}

// What failed with an output, with a message.
pub(crate) fn fail_at(path: &[u8], error: Error) -> Failure {
    if is_standard(path) {
        inputs::fail_at(b"standard output", error);
    } else {
        inputs::fail_at(path, error);
    }
    Failure::Told
}

fn inode_of(files: &impl Files, path: &[u8]) -> Option<u64> {
    of_path(files, path).map(|file| file.inode)
}

pub(crate) fn rename(files: &impl Files, from: &[u8], to: &[u8]) -> Result<(), Error> {
    fs::rename(files, text_of(from)?, text_of(to)?)
}

// Removes new file `number` beside the file of that path.
fn remove_new(rt: &(impl Files + Alloc), path: &[u8], number: u32) -> Result<(), Error> {
    let real = real_path(rt, path).unwrap_or(MadePath::of(b""));
    let made = new_path(real.as_slice(), number);
    fs::remove_file(rt, text_of(made.as_slice())?)
}

// A number that no other run is likely to have.
fn any_number(random: &impl RandomSource) -> u32 {
    let mut bytes = [0u8; 4];
    let _ = random.fill_bytes(&mut bytes);
    u32::from_le_bytes(bytes)
}

// Tells the wrapper of a new file, which it removes if this program is stopped.
fn announce(path: &[u8]) {
    if path.contains(&b'\n') {
        return;
    }
    io::write_all(WRAPPER, b"+");
    io::write_all(WRAPPER, path);
    io::write_all(WRAPPER, b"\n");
}

// Makes the file of that path, which has none yet.
fn create<R: Files>(files: &R, path: &[u8]) -> Result<R::File, Error> {
    OpenOptions::new()
        .write(true)
        .create_new(true)
        .open(files, text_of(path)?)
}

// Opens the file of that path to add to it.
fn open_append<R: Files>(files: &R, path: &[u8]) -> Result<R::File, Error> {
    OpenOptions::new().append(true).open(files, text_of(path)?)
}

// Whether a file that exists may be written to; an error where not.
pub(crate) fn may_replace(files: &impl Files, path: &[u8]) -> Result<(), Error> {
    open_append(files, path)?;
    Ok(())
}

// Makes a new file beside the file of that path; the number in its name.
fn make_new(rt: &HostRuntime, path: &[u8]) -> Result<(u32, File), Error> {
    for _ in 0..64 {
        let number = any_number(rt);
        let made = new_path(path, number);
        announce(made.as_slice());
        match create(rt, made.as_slice()) {
            Ok(file) => return Ok((number, file)),
            Err(error) if error.kind() == ErrorKind::AlreadyExists => {}
            Err(error) => return Err(error),
        }
    }
    Err(Error::from_raw_os_error(EEXIST))
}

// Opens a new file beside the file of that path, with the mode of the old one.
fn open_new(rt: &HostRuntime, path: &[u8], old: Option<Identity>) -> Result<(u32, File), Error> {
    let Some(real) = real_path(rt, path) else {
        return Err(Error::from_raw_os_error(ELOOP));
    };
    let Some(old) = old else {
        return make_new(rt, real.as_slice());
    };
    may_replace(rt, real.as_slice())?;
    let (number, file) = make_new(rt, real.as_slice())?;
    let _ = file.set_permissions(Permissions::from_mode(old.mode % 512));
    Ok((number, file))
}

// Opens the output of that path.
fn open_path(rt: &HostRuntime, path: &[u8]) -> Result<(Way, Sink), Error> {
    if is_standard(path) {
        return Ok((Way::Open, Sink::Output(rt.stdout())));
    }
    let old = of_path(rt, path);
    if is_same(old, of_descriptor(rt, STDOUT_FILENO)) {
        return Ok((Way::Open, Sink::Output(rt.stdout())));
    }
    if is_same(old, of_descriptor(rt, STDERR_FILENO)) {
        return Ok((Way::Open, Sink::Errors(rt.stderr())));
    }
    if is_special(path) | (old.is_some() & !is_regular(old)) {
        return Ok((Way::Direct, Sink::Opened(open_append(rt, path)?)));
    }
    let (number, file) = open_new(rt, path, old)?;
    Ok((Way::New { number }, Sink::Opened(file)))
}
