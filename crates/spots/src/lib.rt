// A place in a walk over the tokens of a file, and what every walk needs.
#![tactic(auto)]

ghost use Rattle.std.specs.Prelude.{◌≡◌, ◌+◌, ◌*◌, ◌/◌, ◌%◌, ◌<◌, length};

use lex::{GRAVE, NEWLINE, Token, marks_after};
use names::directive_of;
use text::part_of;

// Where the walk stands: the file, the byte, its line, where that line starts, whether only white bytes stand before on it,
// whether it is between quote marks, and the end of the last definition met, up to which directives are but text.
#[derive(Clone, Copy)]
pub struct Spot {
    pub file: usize,
    pub at: usize,
    pub line: usize,
    pub start: usize,
    pub fresh: bool,
    pub marks: bool,
    pub hidden: usize,
}

// A line of a file.
#[derive(Clone, Copy, PartialEq, Eq, PartialOrd, Ord)]
pub struct Place {
    pub file: usize,
    pub line: usize,
}

// How many lines an entry of the map tells apart: it is the file times this, and the line.
const LINES: usize = 131072;

impl Place {
    // The place that an entry of the map stands for.
    pub fn of_entry(entry: u32) -> Place
        ensures file { result.file ≡ entry / LINES }
        ensures line { result.line ≡ entry % LINES }
    {
        Place {
            file: entry as usize / LINES,
            line: entry as usize % LINES,
        }
    }

    // The map's entry for the place.
    pub fn entry(self) -> u32
        ensures entry { result ≡ self.file % 32768 * LINES + self.line % LINES }
        ensures file { self.file < 32768 → result / LINES ≡ self.file }
        ensures line { self.line < LINES → result % LINES ≡ self.line }
    {
        (self.file % 32768 * LINES + self.line % LINES) as u32
    }
}

// The number of the directive that the token `t` is; 0 for all else.
pub fn directive_in(body: &[u8], t: Token) -> usize {
    if t.kind != GRAVE {
        return 0;
    }
    directive_of(part_of(body, t.from, t.end))
}

// Where the walk goes on behind a token from `at` to before `end`.
pub fn past(body: &[u8], at: usize, end: usize) -> usize
    requires { at < length body.now }
    ensures { at < result }
{
    if at < end { end } else { at + 1 }
}

// Whether what stands past the token `t` is between quote marks: they pair up within a definition.
pub fn marks_past(marks: bool, t: Token) -> bool {
    if t.kind == NEWLINE {
        return false;
    }
    marks_after(marks, t)
}
