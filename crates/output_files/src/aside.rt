// Outputs that an older run left, moved aside.
use crate::output_file::{fail_at, may_replace, rename};
use crate::paths::{MadePath, real_path, stale_path};
use crate::targets::{is_special, is_standard};
use identity::{Identity, is_link, is_regular, is_same, of_descriptor, of_path};
use messages::{STDERR_FILENO, STDOUT_FILENO, complain, say};
use std::alloc::Alloc;
use std::rt::Files;

// Whether the file is open as standard output or standard error.
fn is_open(files: &impl Files, file: Option<Identity>) -> bool {
    is_same(file, of_descriptor(files, STDOUT_FILENO))
        | is_same(file, of_descriptor(files, STDERR_FILENO))
}

// Whether anything stands at that path, a link that leads nowhere too.
fn is_taken(files: &impl Files, path: &[u8]) -> bool {
    of_path(files, path).is_some() | is_link(files, path)
}

// The path with `.stale` and a free number from 1 to 8 behind it, or 9.
fn aside_path(files: &impl Files, path: &[u8]) -> MadePath {
    for number in 1..9 {
        let aside = stale_path(path, number);
        if !is_taken(files, aside.as_slice()) {
            return aside;
        }
    }
    stale_path(path, 9)
}

// Moves the file of that path, which is `real` behind links, aside, and says so.
fn move_aside(files: &impl Files, path: &[u8], real: &[u8]) {
    let aside = aside_path(files, real);
    match rename(files, real, aside.as_slice()) {
        Ok(()) => {
            say(b"arborstitch: ");
            say(path);
            say(b": this run did not succeed: the old file is now ");
            say(aside.as_slice());
            say(b"\n");
        }
        Err(error) => {
            fail_at(path, error);
            complain(path, b"it stands as an older run left it");
        }
    }
}

// Sees to it that the output of that path does not stand, where a run did not succeed.
pub fn set_aside(rt: &(impl Files + Alloc), path: &[u8]) {
    if is_standard(path) | is_special(path) {
        return;
    }
    let file = of_path(rt, path);
    if !is_regular(file) | is_open(rt, file) {
        return;
    }
    match real_path(rt, path) {
        Some(real) if may_replace(rt, real.as_slice()).is_ok() => {
            move_aside(rt, path, real.as_slice());
        }
        _ => complain(
            path,
            b"write-protected, so it stands as an older run left it",
        ),
    }
}
