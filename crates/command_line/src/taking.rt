// What each word asks for, put into the plan.
use messages::{Failure, complain};
use options::{Flag, Valued, Word, command_of, number_of, set_of, word_of};
use plan::{Command, FileKind, GivenFile, GivenMacro, Item, Output, Plan};
use std::alloc::{AllocError, Global};
use std::rt::Files;
use word_lists::{Entry, Words};

// The most files, folders, macros and lists.
const MOST_ITEMS: usize = 1024;

// How far the words are taken.
#[derive(Drop)]
pub struct Taking {
    alloc: Global,
    words: Words,
    plan: Plan,
    // the option whose value comes next
    due: Option<Valued>,
    // whether only files follow
    only_files: bool,
    // the folder that is stripped from names from here on
    strip: Vec<u8>,
}

fn bad(what: &[u8], why: &[u8]) -> Result<(), Failure> {
    complain(what, why);
    Err(Failure::Told)
}

fn file_kind(value: &[u8]) -> FileKind {
    match value {
        b"-" => FileKind::Input,
        _ => FileKind::Root,
    }
}

impl Taking {
    pub fn new(words: Words, alloc: Global) -> Taking {
        Taking {
            alloc,
            words,
            plan: Plan::new(alloc),
            due: None,
            only_files: false,
            strip: Vec::new(alloc),
        }
    }

    pub fn next(&mut self) -> Option<Entry> {
        self.words.next()
    }

    // Whether what was taken ends the command line.
    pub fn is_ended(&self) -> bool {
        matches!(self.plan.command, Command::Help | Command::Version)
    }

    pub fn into_plan(self) -> Plan {
        let Taking { mut plan, due, .. } = self;
        plan.lacks_value = due.is_some();
        plan
    }

    // Takes a word: the first may name a command; any may be the value of the option before it.
    pub fn take(
        &mut self,
        files: &impl Files,
        entry: Entry,
        is_first: bool,
    ) -> Result<(), Failure> {
        let word = match entry {
            Entry::Word(word) => word,
            Entry::ListEnd => return self.end_list(),
        };
        let word = word.as_slice();
        if is_first {
            if let Some(command) = command_of(word) {
                self.take_command(command);
                return Ok(());
            }
        }
        if let Some(kind) = self.due.take() {
            return self.take_value(files, kind, word);
        }
        if self.only_files {
            return self.add_file(file_kind(word), word);
        }
        self.take_option(files, word)
    }

    // The end of a list: its last option has its value.
    fn end_list(&self) -> Result<(), Failure> {
        if self.due.is_none() {
            return Ok(());
        }
        bad(b"the last option of a list", b"its value is missing there")
    }

    // The command that the first word names.
    fn take_command(&mut self, command: Command) {
        self.plan.command = command;
        if command == Command::LookUp {
            self.due = Some(Valued::Name);
        }
    }

    // A word that is no option's value.
    fn take_option(&mut self, files: &impl Files, word: &[u8]) -> Result<(), Failure> {
        match word_of(word) {
            Word::File => self.add_file(file_kind(word), word),
            Word::Valued(kind, Some(value)) => self.take_value(files, kind, value),
            Word::Valued(kind, None) => {
                self.due = Some(kind);
                Ok(())
            }
            Word::Macros(b"") | Word::Folders(b"") => bad(
                word,
                b"nothing stands behind it: give +define+NAME=VALUE or +incdir+DIR",
            ),
            Word::Macros(values) => {
                for value in values.split(|b| *b == b'+') {
                    if !value.is_empty() {
                        self.add_macro(value)?;
                    }
                }
                Ok(())
            }
            Word::Folders(values) => {
                for value in values.split(|b| *b == b'+') {
                    if !value.is_empty() {
                        self.add_folder(value)?;
                    }
                }
                Ok(())
            }
            Word::Flag(flag) => {
                self.take_flag(flag);
                Ok(())
            }
            Word::Unknown => bad(word, b"no such option (arborstitch -h lists them)"),
        }
    }

    fn take_flag(&mut self, flag: Flag) {
        match flag {
            Flag::Help => self.plan.command = Command::Help,
            Flag::Version => self.plan.command = Command::Version,
            Flag::Quiet => self.plan.quiet = true,
            Flag::Silent => self.plan.silent = true,
            Flag::Strict => self.plan.strict = true,
            Flag::Lines => self.plan.lines = true,
            Flag::Defines => self.plan.defines = true,
            Flag::End => self.only_files = true,
        }
    }

    // The value of an option.
    fn take_value(
        &mut self,
        files: &impl Files,
        kind: Valued,
        value: &[u8],
    ) -> Result<(), Failure> {
        match kind {
            Valued::Macro => self.add_macro(value),
            Valued::Folder => self.add_folder(value),
            Valued::Included => self.add_file(FileKind::Included, value),
            Valued::Angled => self.add_file(FileKind::Angled, value),
            Valued::List => {
                self.add(Item::List(self.copy_of(value)?))?;
                self.words.take_list(files, value)
            }
            Valued::Output(output) => self.take_output(output, value),
            Valued::Set => self.take_set(value),
            Valued::Limit => self.take_limit(value),
            Valued::Strip => {
                self.strip = self.copy_of(value)?;
                Ok(())
            }
            Valued::Name => {
                self.plan.name = self.copy_of(value)?;
                Ok(())
            }
        }
    }

    fn take_output(&mut self, output: Output, path: &[u8]) -> Result<(), Failure> {
        if path.is_empty() {
            return bad(
                b"an output without a path",
                b"give a file, or - for standard output",
            );
        }
        if self.plan.outputs.is_given(output) {
            return bad(path, b"this output is given twice: give one of each kind");
        }
        let path = self.copy_of(path)?;
        self.plan.outputs.set_path(output, path);
        Ok(())
    }

    fn take_set(&mut self, version: &[u8]) -> Result<(), Failure> {
        match set_of(version) {
            Some(set) => {
                self.plan.set = set;
                Ok(())
            }
            None => bad(
                version,
                b"--set takes 1364-1995, 1364-2001, 1364-2005 or 1800-2005",
            ),
        }
    }

    fn take_limit(&mut self, digits: &[u8]) -> Result<(), Failure> {
        match number_of(digits) {
            Some(limit) => {
                self.plan.limit = limit;
                Ok(())
            }
            None => bad(digits, b"--limit takes a number below 4,000,000,000"),
        }
    }

    // The folder is kept with a file only where it stands in front of its path, so no file keeps more than its path has bytes.
    fn add_file(&mut self, kind: FileKind, path: &[u8]) -> Result<(), Failure> {
        let strip = match path.starts_with(self.strip.as_slice()) {
            true => self.strip.clone()?,
            false => Vec::new(self.alloc),
        };
        let path = self.copy_of(path)?;
        self.add(Item::File(GivenFile { kind, path, strip }))
    }

    fn add_macro(&mut self, word: &[u8]) -> Result<(), Failure> {
        self.add(Item::Macro(GivenMacro {
            word: self.copy_of(word)?,
        }))
    }

    fn add_folder(&mut self, path: &[u8]) -> Result<(), Failure> {
        if path.is_empty() {
            return bad(
                b"-I without a folder",
                b"give one, as -I DIR or +incdir+DIR",
            );
        }
        self.add(Item::Folder(self.copy_of(path)?))
    }

    fn add(&mut self, item: Item) -> Result<(), Failure> {
        if self.plan.items.len() >= MOST_ITEMS {
            return bad(b"the command line", b"over 1,024 files, folders and macros");
        }
        self.plan.items.push(item)?;
        Ok(())
    }

    fn copy_of(&self, w: &[u8]) -> Result<Vec<u8>, AllocError> {
        Vec::from_slice(self.alloc, w)
    }
}
