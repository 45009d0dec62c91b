// What the technician's command writes to an output that is open: the flat text with or without marks, its map, its words, macros as
// definitions, a rule for make.
#![tactic(auto)]

mod gathering;
mod listing;
mod marks;
mod rule;
mod shown;

pub use listing::{write_map, write_words};
pub use marks::write_marked;
use records::Record;
pub use rule::write_rule;
pub use shown::{show_macro, write_defines};
use std::io::{Result, Write};

// What a flattening leaves, each slice as long as it is filled: the text, its map, its words, where each file is included, and the
// macros with the bytes of their stored forms.
#[derive(Clone, Copy)]
pub struct Flat<'a> {
    pub text: &'a [u8],
    pub map: &'a [u32],
    pub words: &'a [[u32; 3]],
    pub included: &'a [u32],
    pub bytes: &'a [u8],
    pub records: &'a [Record; 4096],
    pub macros: usize,
}

// Writes words as they are.
pub fn say(to: &mut impl Write, w: &[u8]) -> Result<()> {
    to.write_all(w)
}
