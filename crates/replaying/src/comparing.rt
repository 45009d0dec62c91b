// Whether two definitions of a macro say the same.
ghost use Rattle.std.specs.Prelude.{◌<◌};

use definition::{extent_at, head_at};
use lex::{END, Token, in_definition, is_gap, marks_after, token_at};
use spots::past;
use text::part_of;

// The first token from `at` on that is no spacing.
fn next_token(s: &[u8], at: usize, marks: bool) -> Token {
    let mut i = at;
    while i < s.len() {
        let t = token_at(s, i, in_definition(marks));
        if !is_gap(t) {
            return t;
        }
        i = past(s, i, t.end);
    }
    token_at(s, i, in_definition(marks))
}

// Whether two texts are the same tokens but for spacing.
fn same_tokens(a: &[u8], b: &[u8]) -> bool {
    let mut i = 0;
    let mut j = 0;
    let mut marks = false;
    while i < a.len() {
        let t = next_token(a, i, marks);
        let u = next_token(b, j, marks);
        if t.kind == END {
            return u.kind == END;
        }
        if part_of(a, t.at, t.end) != part_of(b, u.at, u.end) {
            return false;
        }
        marks = marks_after(marks, t);
        i = past(a, i, t.end);
        j = u.end;
    }
    next_token(b, j, marks).kind == END
}

// Whether two definitions, whose words end at `i` and `j`, have the same formals and text.
pub fn same_definition(a: &[u8], i: usize, b: &[u8], j: usize) -> bool {
    let g = head_at(a, i);
    let h = head_at(b, j);
    if g.listed != h.listed {
        return false;
    }
    let d = extent_at(a, i);
    let e = extent_at(b, j);
    same_tokens(part_of(a, g.end, d.end), part_of(b, h.end, e.end))
}
