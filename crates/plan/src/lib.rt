// What the command line asks for, and the files that are read for it.
#![tactic(auto)]

mod items;
mod outputs;
mod source_files;

ghost use Rattle.std.specs.Prelude.{◌≡◌, false, [], count_by};
ghost use Rattle.std.specs.List.{list_any};
ghost use Rattle.plan.specs.declared.outputs.Output.{Output};
ghost use Rattle.plan.specs.Given.{is_root_item, has_value_item};
ghost use Rattle.plan.specs.Named.{path_of};

pub use items::{FileKind, GivenFile, GivenMacro, Item};
pub use outputs::{Output, Outputs};
pub use source_files::{SourceFile, Sources};
use std::alloc::Global;

// What the command does; `Help` and `Version` end the command line.
#[derive(Clone, Copy, PartialEq, Eq)]
pub enum Command {
    Flatten,
    Pass,
    LookUp,
    Classify,
    Help,
    Version,
}

// What the command line asks for.
#[derive(Drop)]
pub struct Plan {
    pub command: Command,
    // the keyword set at the start, 0 for 1364-1995 to 3 for 1800-2005
    pub set: usize,
    // the most macro replacements
    pub limit: usize,
    pub quiet: bool,
    // no warnings
    pub silent: bool,
    // a warning is a failure
    pub strict: bool,
    // marks in the text
    pub lines: bool,
    // macros in place of the text
    pub defines: bool,
    // the name that is looked up
    pub name: Vec<u8>,
    pub outputs: Outputs,
    // files, folders, macros and lists in the order given
    pub items: Vec<Item>,
    // the value of the last option is missing
    pub lacks_value: bool,
}

impl Plan {
    // What an empty command line asks for.
    pub fn new(alloc: Global) -> Plan
        ensures command { result.command ≡ Command.Flatten }
        ensures set { result.set ≡ 3 }
        ensures limit { result.limit ≡ 100000 }
        ensures items { result.items.items ≡ [] }
        ensures name { result.name.items ≡ [] }
        ensures outputs { (output : Output) → path_of result.outputs output ≡ [] }
        ensures quiet { result.quiet ≡ false }
        ensures silent { result.silent ≡ false }
        ensures strict { result.strict ≡ false }
        ensures lines { result.lines ≡ false }
        ensures defines { result.defines ≡ false }
        ensures lacks_value { result.lacks_value ≡ false }
    {
        Plan {
            command: Command::Flatten,
            set: 3,
            limit: 100000,
            quiet: false,
            silent: false,
            strict: false,
            lines: false,
            defines: false,
            name: Vec::new(alloc),
            outputs: Outputs::new(alloc),
            items: Vec::new(alloc),
            lacks_value: false,
        }
    }

    // How many files given are roots.
    pub fn count_roots(&self) -> usize
        ensures { result ≡ count_by is_root_item self.now.items.items }
    {
        self.items.iter().filter(|item| item.is_root()).count()
    }

    // Whether a macro is given with a value.
    pub fn has_values(&self) -> bool
        ensures { result ≡ list_any has_value_item self.now.items.items }
    {
        self.items.iter().any(|item| item.has_value())
    }
}
