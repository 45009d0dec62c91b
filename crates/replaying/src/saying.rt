// The words of warnings with a place.
use messages::{say, say_number};
use text::part_of;

// `FILE:LINE:COLUMN: warning: `
pub fn say_place(path: &[u8], line: usize, column: usize) {
    say(path);
    say(b":");
    say_number(line);
    say(b":");
    say_number(column);
    say(b": warning: ");
}

// The column of the byte at `at`, from 1.
fn column_at(s: &[u8], at: usize) -> usize {
    let before = part_of(s, 0, at);
    match before.iter().rposition(|b| *b == b'\n') {
        Some(newline) => before.len() - newline,
        None => before.len() + 1,
    }
}

// The place of the byte at `at` of a file.
pub fn say_byte(path: &[u8], body: &[u8], at: usize) {
    say_place(path, places::line_at(body, at), column_at(body, at));
}

pub fn say_redefined(name: &[u8]) {
    say(b"macro ");
    say(name);
    say(b" is redefined with another text\n");
}

pub fn say_undefined(name: &[u8]) {
    say(b"undef of ");
    say(name);
    say(b", which is not defined\n");
}
