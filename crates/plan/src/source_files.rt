// The files that are read, in the tables that flatten is lent.
ghost use Rattle.std.specs.Prelude.{◌≡◌, ◌-◌, ◌++◌, ◌∷◌, [], None, OnOk, OnErr, length, slice_get, unwrap_or, vec_len};
ghost use Rattle.std.specs.Option.{option_map};
ghost use Rattle.text.specs.Bytes.{part};
ghost use Rattle.plan.specs.Stored.{path_in, range_in, number, entry_for};

use crate::items::FileKind;
use std::alloc::{AllocError, Global};
use text::part_of;

// A file that is read: its kind, and where its path stands in the byte store.
#[derive(Clone, Copy)]
pub struct SourceFile {
    pub kind: FileKind,
    pub path_start: usize,
    pub path_end: usize,
}

// The byte store; the include table and, for each of its entries, the file; the start macros; and the root entry.
#[derive(Drop)]
pub struct Sources {
    pub store: Vec<u8>,
    pub table: Vec<[u32; 5]>,
    pub files: Vec<SourceFile>,
    pub starts: Vec<[u32; 2]>,
    pub root: Option<usize>,
}

impl Sources {
    pub fn new(alloc: Global) -> Sources
        ensures store { result.store.items ≡ [] }
        ensures table { result.table.items ≡ [] }
        ensures files { result.files.items ≡ [] }
        ensures starts { result.starts.items ≡ [] }
        ensures root { result.root ≡ None }
    {
        Sources {
            store: Vec::new(alloc),
            table: Vec::new(alloc),
            files: Vec::new(alloc),
            starts: Vec::new(alloc),
            root: None,
        }
    }

    // The path of file `k`.
    pub fn path(&self, k: usize) -> &[u8]
        ensures { result.now ≡ path_in self.now.store.items (slice_get self.now.files.items k) }
    {
        match self.files.get(k) {
            Some(file) => part_of(self.store.as_slice(), file.path_start, file.path_end),
            None => b"",
        }
    }

    pub fn kind(&self, k: usize) -> Option<FileKind>
        ensures { result ≡ option_map (λ file. file.kind) (slice_get self.now.files.items k) }
    {
        self.files.get(k).map(|file| file.kind)
    }

    // The bytes of file `k`.
    pub fn body(&self, k: usize) -> &[u8]
        ensures { result.now ≡ range_in self.now.store.items 3 (slice_get self.now.table.items k) }
    {
        match self.table.get(k) {
            Some(entry) => {
                let start = entry[3] as usize;
                part_of(self.store.as_slice(), start, start + entry[4] as usize)
            }
            None => b"",
        }
    }
}

// The most bytes of the store: one more than is taken, so that more shows.
const MOST_STORED: usize = 1048577;

// A number as the tables that flatten is lent have it; all are far below what it holds.
fn number_of(n: usize) -> u32
    ensures { result ≡ number n }
{
    u32::try_from(n).unwrap_or(u32::MAX)
}

impl Sources {
    // How many bytes more the store takes.
    pub fn room(&self) -> usize
        ensures { result ≡ MOST_STORED - length self.now.store.items }
    {
        MOST_STORED.saturating_sub(self.store.len())
    }

    // Puts `w` into the store, as far as there is room.
    pub fn append(&mut self, w: &[u8]) -> Result<(), AllocError>
        ensures ok { OnOk result (self.new.store.items ≡ self.old.store.items ++ part w.now 0 (MOST_STORED - length self.old.store.items)) }
        ensures err { OnErr result (self.new.store.items ≡ self.old.store.items) }
        ensures rest { self.new ≡ record self.old { store = self.new.store } }
    {
        let room = self.room();
        self.store.extend_from_slice(part_of(w, 0, room))
    }

    // Enters the file whose path stands in the store from `at` to `end`, with its bytes behind, up to the store's end. Its name is
    // the path but for its first `cut` bytes.
    pub fn enter(
        &mut self,
        kind: FileKind,
        angled: bool,
        at: usize,
        end: usize,
        cut: usize,
    ) -> Result<(), AllocError>
        ensures table { OnOk result (self.new.table.items ≡ self.old.table.items ++ entry_for angled at end cut (length self.old.store.items) ∷ []) }
        ensures files { OnOk result (self.new.files.items ≡ self.old.files.items ++ record { kind = kind; path_start = at; path_end = end } ∷ []) }
        ensures err { OnErr result (self.new.files.items ≡ self.old.files.items) }
        ensures rest { self.new ≡ record self.old { table = self.new.table; files = self.new.files } }
    {
        let name = end.saturating_sub(at).saturating_sub(cut);
        let size = self.store.len().saturating_sub(end);
        self.table.push([
            u32::from(angled),
            number_of(end.saturating_sub(name)),
            number_of(name),
            number_of(end),
            number_of(size),
        ])?;
        self.files.push(SourceFile {
            kind,
            path_start: at,
            path_end: end,
        })?;
        Ok(())
    }

    // Adds a start macro, whose name is put into the store.
    pub fn add_start(&mut self, name: &[u8]) -> Result<(), AllocError>
        ensures store { OnOk result (self.new.store.items ≡ self.old.store.items ++ part name.now 0 (MOST_STORED - length self.old.store.items)) }
        ensures starts { OnOk result (self.new.starts.items ≡ self.old.starts.items ++ (number (length self.old.store.items) ∷ number (length name.now) ∷ []) ∷ []) }
        ensures err { OnErr result (self.new.starts.items ≡ self.old.starts.items) }
        ensures rest { self.new ≡ record self.old { store = self.new.store; starts = self.new.starts } }
    {
        let at = self.store.len();
        self.append(name)?;
        self.starts.push([number_of(at), number_of(name.len())])?;
        Ok(())
    }

    // The number of the root entry, or how many files there are where none is a root.
    pub fn root_entry(&self) -> usize
        ensures { result ≡ unwrap_or self.now.root (length self.now.files.items) }
    {
        self.root.unwrap_or(self.files.len())
    }

    // The name of the entry of file `k`.
    pub fn name(&self, k: usize) -> &[u8]
        ensures { result.now ≡ range_in self.now.store.items 1 (slice_get self.now.table.items k) }
    {
        match self.table.get(k) {
            Some(entry) => {
                let start = entry[1] as usize;
                part_of(self.store.as_slice(), start, start + entry[2] as usize)
            }
            None => b"",
        }
    }

    // The name of start macro `k`.
    pub fn start(&self, k: usize) -> &[u8]
        ensures { result.now ≡ range_in self.now.store.items 0 (slice_get self.now.starts.items k) }
    {
        match self.starts.get(k) {
            Some(range) => {
                let start = range[0] as usize;
                part_of(self.store.as_slice(), start, start + range[1] as usize)
            }
            None => b"",
        }
    }
}

#[cfg(test)]
mod tests {
    use super::*;

    // Bytes, a file and a start macro are taken, and stand where the tables say.
    #[test]
    fn takes_all(rt: HostRuntime) {
        let mut sources = Sources::new(rt.alloc());
        assert!(rt; sources.append(b"a/b.v").is_ok());
        assert!(rt; sources.append(b"wire").is_ok());
        assert!(rt; sources.enter(FileKind::Found, true, 0, 5, 2).is_ok());
        assert!(rt; sources.add_start(b"M").is_ok());
        assert!(rt; sources.path(0) == b"a/b.v".as_slice());
        assert!(rt; sources.name(0) == b"b.v".as_slice());
        assert!(rt; sources.body(0) == b"wire".as_slice());
        assert!(rt; sources.start(0) == b"M".as_slice());
        assert_eq!(rt; sources.room(), 1048567);
    }
}
