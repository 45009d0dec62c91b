// The words of the command line, with those of the lists that it names among them.
#![tactic(auto)]

ghost use Rattle.std.specs.Prelude.{◌≡◌, ◌≤◌, ◌↔◌, ◌++◌, ◌∷◌, [], IsNone, IfSome, IfOk, OnOk, vec_len};

use inputs::{Unread, fail_at, open_input, read_open};
use messages::{Failure, complain};
use std::alloc::{AllocError, Global};
use std::env::{Env, FillError};
use std::rt::Files;

// The most words, ends of lists among them, and the most bytes of arguments and lists.
pub const MOST_WORDS: usize = 4096;

const MOST_BYTES: usize = 131072;

#[derive(Drop)]
pub enum Entry {
    Word(Vec<u8>),
    ListEnd,
}

// The words that are still to be taken.
#[derive(Drop)]
pub struct Words {
    alloc: Global,
    // the next one last
    left: Vec<Entry>,
    // how many words there were, and how many more bytes there may be
    count: usize,
    room: usize,
}

fn fail_long() -> Failure {
    complain(
        b"the command line with its lists",
        b"over 4,096 words or 131,072 bytes",
    );
    Failure::Told
}

fn starts_comment(word: &[u8]) -> bool {
    word.starts_with(b"#") | word.starts_with(b"//")
}

// The words of a list and its end, the last one first. White space parts words; `//` or `#` at the start of a word begins a
// comment up to the line's end.
fn entries_of(list: &[u8], alloc: Global) -> Result<Vec<Entry>, AllocError> {
    let mut entries = Vec::new(alloc);
    for line in list.split(|b| *b == b'\n') {
        for word in line.split(|b| *b <= b' ') {
            if starts_comment(word) {
                break;
            }
            if !word.is_empty() {
                entries.push(Entry::Word(Vec::from_slice(alloc, word)?))?;
            }
        }
    }
    entries.push(Entry::ListEnd)?;
    entries.reverse();
    Ok(entries)
}

impl Words {
    // All arguments.
    pub fn gather(env: &impl Env, alloc: Global) -> Result<Words, Failure> {
        let mut left = Vec::new(alloc);
        let mut room = MOST_BYTES;
        let mut space = [0u8; MOST_BYTES];
        for i in 1..usize::MAX {
            match env.arg(i, &mut space[..room]) {
                Ok(n) if left.len() < MOST_WORDS => {
                    left.push(Entry::Word(Vec::from_slice(alloc, &space[..n])?))?;
                    room -= n;
                }
                Err(FillError::NotPresent) => break,
                _ => return Err(fail_long()),
            }
        }
        left.reverse();
        let count = left.len();
        Ok(Words {
            alloc,
            left,
            count,
            room,
        })
    }

    pub fn next(&mut self) -> Option<Entry>
        ensures none { IsNone result ↔ (self.old.left.items ≡ []) }
        ensures last { IfSome result (λ entry. self.old.left.items ≡ self.new.left.items ++ entry ∷ []) }
        ensures rest { self.new ≡ record self.old { left = self.new.left } }
    {
        self.left.pop()
    }

    // The words of the list of that path, and its end, come next.
    pub fn take_list(&mut self, files: &impl Files, path: &[u8]) -> Result<(), Failure>
        ensures count { OnOk result (self.new.count ≤ MOST_WORDS) }
        ensures room { self.new.room ≤ self.old.room }
    {
        let list = self.read_list(files, path)?;
        let mut entries = entries_of(list.as_slice(), self.alloc)?;
        self.count = self.count.saturating_add(entries.len());
        if self.count > MOST_WORDS {
            return Err(fail_long());
        }
        self.left.append(&mut entries)?;
        Ok(())
    }

    // The bytes of the list of that path.
    fn read_list(&mut self, files: &impl Files, path: &[u8]) -> Result<Vec<u8>, Failure>
        ensures { self.new.room ≤ self.old.room }
    {
        let Some(file) = open_input(files, path) else {
            return Err(Failure::Told);
        };
        let mut list = Vec::new(self.alloc);
        match read_open(file, &mut list, self.room) {
            Ok(n) => {
                self.room = self.room.saturating_sub(n);
                Ok(list)
            }
            Err(Unread::Full) => Err(fail_long()),
            Err(Unread::Memory) => Err(Failure::Memory),
            Err(Unread::Failed(error)) => {
                fail_at(path, error);
                Err(Failure::Told)
            }
        }
    }
}

#[cfg(test)]
mod tests {
    use super::*;

    // An empty list is taken: its end comes next.
    #[test]
    fn takes_an_empty_list(rt: HostRuntime) {
        match Words::gather(&rt, rt.alloc()) {
            Ok(mut words) => {
                assert!(rt; words.take_list(&rt, b"/dev/null").is_ok());
                assert!(rt; matches!(words.next(), Some(Entry::ListEnd)));
            }
            Err(_) => assert!(rt; false),
        }
    }
}
