// The line map and the words.
use crate::gathering::Gathering;
use plan::Sources;
use std::io::{Result, Write};
use text::part_of;

// The map: a line for each line of the text, with its number, its file and the line there.
pub fn write_map(to: &mut impl Write, sources: &Sources, map: &[u32]) -> Result<()> {
    let mut to = Gathering::new(to);
    for (i, entry) in map.iter().enumerate() {
        to.field(i + 1)?;
        to.bytes(sources.path((*entry / 131072) as usize))?;
        to.bytes(b" ")?;
        to.number((*entry % 131072) as usize)?;
        to.bytes(b"\n")?;
    }
    to.write_held()
}

// The words of a text, a line for each: offset, length, 1 if reserved, and the word.
pub fn write_words(to: &mut impl Write, text: &[u8], words: &[[u32; 3]]) -> Result<()> {
    let mut to = Gathering::new(to);
    for word in words {
        let start = word[0] as usize;
        let length = word[1] as usize;
        to.field(start)?;
        to.field(length)?;
        to.field(word[2] as usize)?;
        to.bytes(part_of(text, start, start + length))?;
        to.bytes(b"\n")?;
    }
    to.write_held()
}
