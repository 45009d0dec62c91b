// The macros now defined.
use plan::{Item, Plan};
use std::alloc::Global;

// The most macros that are kept.
const MOST: usize = 512;

// A macro: its name, and the number of the note that defines it, if no `-D` does.
#[derive(Clone, Copy)]
pub struct Macro<'a> {
    pub name: &'a [u8],
    pub note: Option<usize>,
}

// The macros; whether there were too many to keep, or no memory was left for one.
#[derive(Drop)]
pub struct Defined<'a> {
    list: Vec<Macro<'a>>,
    pub full: bool,
    pub lost: bool,
}

impl<'a> Defined<'a> {
    // Those of the command line that have no value.
    pub fn start(alloc: Global, plan: &'a Plan) -> Defined<'a> {
        let mut defined = Defined {
            list: Vec::new(alloc),
            full: false,
            lost: false,
        };
        for item in plan.items.iter() {
            if let Item::Macro(given) = item {
                if given.value().is_none() {
                    defined.add(Macro {
                        name: given.plain_name(),
                        note: None,
                    });
                }
            }
        }
        defined
    }

    // Where the macro of that name stands.
    pub fn find(&self, name: &[u8]) -> Option<usize> {
        self.list.iter().position(|known| known.name == name)
    }

    pub fn add(&mut self, new: Macro<'a>) {
        if MOST <= self.list.len() {
            self.full = true;
        } else if self.list.push(new).is_err() {
            self.lost = true;
        }
    }

    // Note `k` now defines macro `j`; what defined it before.
    pub fn redefine(&mut self, j: usize, k: usize) -> Option<usize> {
        match self.list.get_mut(j) {
            Some(known) => known.note.replace(k),
            None => None,
        }
    }

    // Removes macro `j`: the last one takes its place.
    pub fn remove(&mut self, j: usize) {
        if j < self.list.len() {
            self.list.swap_remove(j);
        }
    }

    pub fn clear(&mut self) {
        self.list.clear();
    }
}
