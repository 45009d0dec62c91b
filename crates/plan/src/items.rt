// Files, folders, macros and lists of words, as the command line gives them.
ghost use Rattle.std.specs.Prelude.{◌≡◌, drop, position};
ghost use Rattle.std.specs.List.{before_first, position_or_len};
ghost use Rattle.std.specs.Option.{option_copied};
ghost use Rattle.plan.specs.Given.{is_root_kind, is_equals, value_in, plain, is_root_item, has_value_item, folder_length};

use text::part_of;

// How a file came to be read.
#[derive(Clone, Copy, PartialEq, Eq)]
pub enum FileKind {
    Root,
    Included,
    // for an include in angle brackets
    Angled,
    // the search found it
    Found,
    // the entry that the command makes
    Made,
    // standard input, a root
    Input,
}

impl FileKind {
    pub fn is_root(self) -> bool
        ensures { result ≡ is_root_kind self }
    {
        (self == FileKind::Root) | (self == FileKind::Input)
    }
}

// A file, and the folder that is stripped from its name.
#[derive(Drop)]
pub struct GivenFile {
    pub kind: FileKind,
    pub path: Vec<u8>,
    pub strip: Vec<u8>,
}

impl GivenFile {
    // The name that the file has as an entry.
    pub fn entry_name(&self) -> &[u8]
        ensures { result.now ≡ drop (folder_length self.now.path.items self.now.strip.items) self.now.path.items }
    {
        let path = self.path.as_slice();
        part_of(path, folder_in(path, self.strip.as_slice()), path.len())
    }
}

// How many bytes of a path its leading folder `dir` takes, with the slash behind it; 0 where it does not stand there.
fn folder_in(path: &[u8], dir: &[u8]) -> usize
    ensures { result ≡ folder_length path.now dir.now }
{
    if !path.starts_with(dir) {
        return 0;
    }
    match dir.last() {
        None => 0,
        Some(b'/') => dir.len(),
        Some(_) => match path.get(dir.len()) {
            Some(b'/') => dir.len() + 1,
            _ => 0,
        },
    }
}

// A macro to be defined at the start: `NAME` or `NAME=VALUE`.
#[derive(Drop)]
pub struct GivenMacro {
    pub word: Vec<u8>,
}

fn equals_in(word: &[u8]) -> Option<usize>
    ensures { result ≡ position is_equals word.now }
{
    word.iter().position(|b| *b == b'=')
}

impl GivenMacro {
    // Where the `=` stands, or the word's end.
    fn split(&self) -> usize
        ensures { result ≡ position_or_len is_equals self.now.word.items }
    {
        let word = self.word.as_slice();
        equals_in(word).unwrap_or(word.len())
    }

    pub fn name(&self) -> &[u8]
        ensures { result.now ≡ before_first is_equals self.now.word.items }
    {
        part_of(self.word.as_slice(), 0, self.split())
    }

    pub fn value(&self) -> Option<&[u8]>
        ensures { option_copied result ≡ value_in self.now.word.items }
    {
        let at = self.split();
        if at < self.word.len() {
            Some(part_of(self.word.as_slice(), at + 1, self.word.len()))
        } else {
            None
        }
    }
}

// What a word of the command line names.
#[derive(Drop)]
pub enum Item {
    File(GivenFile),
    Folder(Vec<u8>),
    Macro(GivenMacro),
    // a list of words
    List(Vec<u8>),
}

impl Item {
    pub fn is_root(&self) -> bool
        ensures { result ≡ is_root_item self.now }
    {
        match self {
            Item::File(file) => file.kind.is_root(),
            _ => false,
        }
    }

    pub fn has_value(&self) -> bool
        ensures { result ≡ has_value_item self.now }
    {
        match self {
            Item::Macro(given) => given.value().is_some(),
            _ => false,
        }
    }
}

impl GivenMacro {
    // The name without a leading `\`.
    pub fn plain_name(&self) -> &[u8]
        ensures { result.now ≡ plain (before_first is_equals self.now.word.items) }
    {
        let name = self.name();
        match name.split_first() {
            Some((b'\\', rest)) => rest,
            _ => name,
        }
    }
}
