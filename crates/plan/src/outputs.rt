// The outputs that the command line names.
ghost use Rattle.std.specs.Prelude.{◌≡◌, ◌≢◌, [], length, not, nat_eq};
ghost use Rattle.plan.specs.Named.{path_of};
ghost use Rattle.plan.specs.declared.outputs.Output.{Output};

use std::alloc::Global;

// The outputs, in the order in which they are put in place.
#[derive(Clone, Copy, PartialEq, Eq)]
pub enum Output {
    Rule,
    Map,
    Words,
    Text,
}

// The path of each output; empty where none is given.
#[derive(Drop)]
pub struct Outputs {
    pub rule: Vec<u8>,
    pub map: Vec<u8>,
    pub words: Vec<u8>,
    pub text: Vec<u8>,
}

impl Outputs {
    pub fn new(alloc: Global) -> Outputs
        ensures { (output : Output) → path_of result output ≡ [] }
    {
        Outputs {
            rule: Vec::new(alloc),
            map: Vec::new(alloc),
            words: Vec::new(alloc),
            text: Vec::new(alloc),
        }
    }

    pub fn path(&self, output: Output) -> &[u8]
        ensures { result.now ≡ path_of self.now output }
    {
        match output {
            Output::Rule => self.rule.as_slice(),
            Output::Map => self.map.as_slice(),
            Output::Words => self.words.as_slice(),
            Output::Text => self.text.as_slice(),
        }
    }

    pub fn set_path(&mut self, output: Output, path: Vec<u8>)
        ensures set { path_of self.new output ≡ path.items }
        ensures others { (other : Output) → other ≢ output → path_of self.new other ≡ path_of self.old other }
    {
        match output {
            Output::Rule => self.rule = path,
            Output::Map => self.map = path,
            Output::Words => self.words = path,
            Output::Text => self.text = path,
        }
    }

    pub fn is_given(&self, output: Output) -> bool
        ensures { result ≡ not (nat_eq (length (path_of self.now output)) 0) }
    {
        !self.path(output).is_empty()
    }
}
