// Which file an output's path names.
use crate::paths::{MadePath, base_start, real_path};
use identity::{Identity, is_device, is_regular, is_same, of_descriptor, of_path};
use messages::STDOUT_FILENO;
use std::alloc::Alloc;
use std::rt::Files;
use text::part_of;

// Whether this is standard output: no path, or `-`.
pub fn is_standard(path: &[u8]) -> bool {
    matches!(path, b"" | b"-")
}

// Whether a path leads to a device or to an open descriptor: what is there is neither replaced nor moved.
pub(crate) fn is_special(path: &[u8]) -> bool {
    path.starts_with(b"/dev/") | path.starts_with(b"/proc/")
}

fn target_of(files: &impl Files, path: &[u8]) -> Option<Identity> {
    if is_standard(path) {
        return of_descriptor(files, STDOUT_FILENO);
    }
    of_path(files, path)
}

// The folder of the file of that path.
fn folder_of(files: &impl Files, path: &[u8]) -> Option<Identity> {
    match base_start(path) {
        0 => of_path(files, b"."),
        start => of_path(files, part_of(path, 0, start)),
    }
}

// The last name of a path.
fn name_of(path: &[u8]) -> &[u8] {
    part_of(path, base_start(path), path.len())
}

// Whether two paths, neither of a file that exists, name one file.
fn name_one_new(rt: &(impl Files + Alloc), a: &[u8], b: &[u8]) -> bool {
    let a = real_path(rt, a).unwrap_or(MadePath::of(b""));
    let b = real_path(rt, b).unwrap_or(MadePath::of(b""));
    (name_of(a.as_slice()) == name_of(b.as_slice()))
        && is_same(folder_of(rt, a.as_slice()), folder_of(rt, b.as_slice()))
}

// Whether two outputs go to one file other than a device.
pub fn names_one(rt: &(impl Files + Alloc), a: &[u8], b: &[u8]) -> bool {
    if is_standard(a) & is_standard(b) {
        return true;
    }
    let x = target_of(rt, a);
    let y = target_of(rt, b);
    match (x, y) {
        (Some(_), Some(_)) => is_same(x, y) & !is_device(x),
        (None, None) => name_one_new(rt, a, b),
        _ => false,
    }
}

// Whether the output of that path would overwrite the file `read`.
pub fn overwrites(files: &impl Files, path: &[u8], read: Option<Identity>) -> bool {
    let target = target_of(files, path);
    is_regular(target) & is_same(target, read)
}
