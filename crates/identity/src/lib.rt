// Which file a path or a descriptor stands for: its device and inode, its kind, and where a link leads. A path is bytes here and
// UTF-8 text in std, so a path that is no such text stands for no file.
#![tactic(auto)]

ghost use Rattle.identity.specs.Ended.{Ended};
ghost use Rattle.io.specs.Counts.{IsPrefixLen};
ghost use Rattle.std.specs.Prelude.{◌≡◌, IsTrue, IsSome};

use std::alloc::Alloc;
use std::fs::Metadata;
use std::io::{Error, ErrorKind, Result};
use std::os::unix::fs::MetadataExt;
use std::path::PathBuf;
use std::rt::Files;
use std::{fs, str};

// The most bytes of a path: one of the 4,096 is the 0 that ends it.
const LAST: usize = 4095;

// What a file is known by.
#[derive(Clone, Copy)]
pub struct Identity {
    pub device: u64,
    pub inode: u64,
    pub mode: u32,
}

// The path as text, where it is such.
pub fn text_of(path: &[u8]) -> Result<&str> {
    str::from_utf8(path).map_err(|_| Error::new(
        ErrorKind::InvalidFilename,
        "the path is not UTF-8",
    ))
}

// The file at the path, at a link the file where it leads. A path that is empty, has a 0 byte or is over 4,095 bytes is not found.
pub fn of_path(files: &impl Files, path: &[u8]) -> Option<Identity> {
    if !is_path(path) {
        return None;
    }
    stat_of(files, &ended(path))
}

// The file that is open at the descriptor.
pub fn of_descriptor(files: &impl Files, fd: i32) -> Option<Identity> {
    let fd = u64::try_from(fd).ok()?;
    let mut space = io::buffer();
    let n = descriptor_path(fd, &mut space);
    of_path(files, &space[..n])
}

// Whether both were found and are one file.
pub fn is_same(a: Option<Identity>, b: Option<Identity>) -> bool
    ensures first { IsTrue result → IsSome a }
    ensures second { IsTrue result → IsSome b }
    ensures device { (x y : Identity) → IsTrue result → a ≡ Some x → b ≡ Some y → x.device ≡ y.device }
    ensures inode { (x y : Identity) → IsTrue result → a ≡ Some x → b ≡ Some y → x.inode ≡ y.inode }
{
    match (a, b) {
        (Some(a), Some(b)) => (a.device == b.device) & (a.inode == b.inode),
        _ => false,
    }
}

// Whether it was found and is a regular file.
pub fn is_regular(a: Option<Identity>) -> bool
    ensures found { IsTrue result → IsSome a }
{
    is_of(a, 8)
}

// Whether it was found and is a folder.
pub fn is_folder(a: Option<Identity>) -> bool
    ensures found { IsTrue result → IsSome a }
{
    is_of(a, 4)
}

// Whether it was found and is a character device.
pub fn is_device(a: Option<Identity>) -> bool
    ensures found { IsTrue result → IsSome a }
{
    is_of(a, 2)
}

// Whether it was found and its mode says this kind.
fn is_of(a: Option<Identity>, kind: u32) -> bool
    ensures found { IsTrue result → IsSome a }
{
    a.is_some_and(|a| a.mode / 4096 % 16 == kind)
}

// Whether the path is that of a link, wherever it leads.
pub fn is_link(files: &impl Files, path: &[u8]) -> bool {
    match text_of(path) {
        Ok(text) => fs::symlink_metadata(files, text).is_ok_and(|told| told.is_symlink()),
        Err(_) => false,
    }
}

// The link's text; none where the path is no link.
pub fn link_of<R: Files + Alloc>(rt: &R, path: &[u8]) -> Option<PathBuf<R::A>> {
    fs::read_link(rt, text_of(path).ok()?).ok()
}

// Whether the system can be handed all of the path.
fn is_path(path: &[u8]) -> bool {
    !path.is_empty() & (path.len() <= LAST) & !path.contains(&0)
}

// As much of the path as leaves room for a 0, and then zeros.
fn ended(path: &[u8]) -> [u8; 4096]
    ensures { Ended result }
{
    let mut text = io::buffer();
    let n = path.len().min(LAST);
    text[..n].copy_from_slice(&path[..n]);
    text[LAST] = 0;
    text
}

// The bytes before the first 0.
fn until_zero(path: &[u8]) -> &[u8] {
    match path.iter().position(|&b| b == 0) {
        Some(n) => &path[..n],
        None => path,
    }
}

// Puts `w` at the front of `out` and answers its length; 0 where it does not leave a byte free.
fn put_whole(w: &[u8], out: &mut [u8]) -> usize
    ensures { IsPrefixLen result out.new }
{
    if out.len() <= w.len() {
        return 0;
    }
    out[..w.len()].copy_from_slice(w);
    w.len()
}

// The path that stands for an open descriptor, at the front of `out`; its length.
fn descriptor_path(fd: u64, out: &mut [u8; 4096]) -> usize
    ensures { IsPrefixLen result out.new }
{
    let mut digits = [0u8; 20];
    let k = io::decimal(fd, &mut digits);
    let n = put_whole(b"/proc/self/fd/", out);
    n + put_whole(&digits[..k], &mut out[n..])
}

// The file that the system told of.
fn found_by(told: Metadata) -> Identity {
    Identity {
        device: told.dev(),
        inode: told.ino(),
        mode: told.mode(),
    }
}

// The file at a path that the system can be handed.
fn stat_of(files: &impl Files, path: &[u8; 4096]) -> Option<Identity>
    requires { Ended path.now }
{
    let text = text_of(until_zero(path)).ok()?;
    fs::metadata(files, text).ok().map(found_by)
}
