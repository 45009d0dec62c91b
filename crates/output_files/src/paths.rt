// Paths: of the file behind links, of a new file beside it, with a number behind them.
use identity::{is_link, link_of};
use std::alloc::Alloc;
use std::rt::Files;
use text::part_of;

// The most bytes of a path.
const MOST: usize = 4096;

// A path that is made; what does not fit behind its bytes is cut off.
#[derive(Clone, Copy)]
pub(crate) struct MadePath {
    bytes: [u8; MOST],
    length: usize,
}

impl MadePath {
    pub(crate) fn of(path: &[u8]) -> MadePath {
        let mut made = MadePath {
            bytes: [0; MOST],
            length: 0,
        };
        made.push(path);
        made
    }

    pub(crate) fn as_slice(&self) -> &[u8] {
        part_of(&self.bytes, 0, self.length)
    }

    fn push(&mut self, w: &[u8]) {
        let start = self.length.min(MOST);
        let n = w.len().min(MOST - start);
        self.bytes[start..start + n].copy_from_slice(&w[..n]);
        self.length = start + n;
    }

    fn push_number(&mut self, number: u32) {
        let mut digits = [0u8; 20];
        let n = io::decimal(u64::from(number), &mut digits);
        self.push(&digits[..n]);
    }

    // Leaves the first `n` bytes.
    fn truncate(&mut self, n: usize) {
        self.length = self.length.min(n);
    }
}

// Where the last name of a path starts.
pub(crate) fn base_start(path: &[u8]) -> usize {
    match path.iter().rposition(|b| *b == b'/') {
        Some(slash) => slash + 1,
        None => 0,
    }
}

// The path that a link with the text `to` leads to, in place of the link's own.
fn follow(path: &mut MadePath, to: &[u8]) {
    if to.starts_with(b"/") {
        path.truncate(0);
    } else {
        path.truncate(base_start(path.as_slice()));
    }
    path.push(to);
}

// The path of the file itself, where `path` is a link or a chain of them; none where it has over 16, or where one leads to a path
// that cannot be told.
pub(crate) fn real_path(rt: &(impl Files + Alloc), path: &[u8]) -> Option<MadePath> {
    let mut real = MadePath::of(path);
    for _ in 0..16 {
        if !is_link(rt, real.as_slice()) {
            return Some(real);
        }
        let link = link_of(rt, real.as_slice())?;
        follow(&mut real, link.as_str().as_bytes());
    }
    None
}

// The path of new file `number` beside the file of that path.
pub(crate) fn new_path(path: &[u8], number: u32) -> MadePath {
    let mut made = MadePath::of(part_of(path, 0, base_start(path)));
    made.push(b".arborstitch-");
    made.push_number(number);
    made
}

// The path with `.stale` and a number behind it.
pub(crate) fn stale_path(path: &[u8], number: u32) -> MadePath {
    let mut aside = MadePath::of(path);
    aside.push(b".stale");
    aside.push_number(number);
    aside
}
