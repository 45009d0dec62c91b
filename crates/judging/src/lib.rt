// Judges what a definition stores (document 01, "Bad definition"), read afresh as it is made, so that nothing is written down.
#![tactic(auto)]

ghost use Rattle.std.specs.Prelude.{None, ◌≡◌, false, [], ◌≤◌, length};
ghost use Rattle.text.specs.Bytes.{part};
ghost use Rattle.brackets.specs.Stacks.{Settled};
ghost use Rattle.storing.specs.Stored.{joined_from, escape_of, given, piece, stored, trim_left, trim_right};
ghost use Rattle.afresh.specs.States.{reading};
ghost use Rattle.afresh.specs.Feeding.{state_of, Sound, FedBy, verdict_of};
ghost use Rattle.afresh.specs.Unfit.{is_unfit_as};

use afresh::{Reading, begin, end_verdict, read_byte};
use lex::{
    BLOCK_COMMENT, CONTINUATION, LINE_COMMENT, NEWLINE, STRING, Token, in_definition, marks_after,
    token_at,
};
use text::part_of;

// Reads the bytes of `w`. Here too None says that the brackets have no room.
fn read_bytes(w: &[u8], r: Reading, name: &mut [u8], stack: &mut [u8]) -> Option<Reading>
    requires { Sound r name.old stack.old }
    ensures { FedBy result r (length w.now) (reading (state_of r name.old stack.old) w.now) stack.old name.new stack.new }
{
    let mut q = r;
    for &b in w {
        q = read_byte(q, b, name, stack)?;
    }
    Some(q)
}

// Reads the two bytes of an escape, `\` and `b`, or nothing where it is a `\` before a newline.
fn read_escape(r: Reading, b: u8, name: &mut [u8], stack: &mut [u8]) -> Option<Reading>
    requires { Sound r name.old stack.old }
    ensures { FedBy result r (length (escape_of b)) (reading (state_of r name.old stack.old) (escape_of b)) stack.old name.new stack.new }
{
    if b == 10 {
        return Some(r);
    }
    let q = read_byte(r, 92, name, stack)?;
    read_byte(q, b, name, stack)
}

// Reads what byte `b` of a string gives: nothing yet for an unescaped `\`, which the next byte decides on.
fn read_string_byte(
    r: Reading,
    escaped: bool,
    b: u8,
    name: &mut [u8],
    stack: &mut [u8],
) -> Option<Reading>
    requires { Sound r name.old stack.old }
    ensures { FedBy result r (length (given escaped b)) (reading (state_of r name.old stack.old) (given escaped b)) stack.old name.new stack.new }
{
    if escaped {
        return read_escape(r, b, name, stack);
    }
    if b == 92 {
        return Some(r);
    }
    read_byte(r, b, name, stack)
}

// Reads the `\` that a string ends with, where one is left over.
fn read_rest(r: Reading, escaped: bool, name: &mut [u8], stack: &mut [u8]) -> Option<Reading>
    requires { Sound r name.old stack.old }
    ensures { FedBy result r (length (joined_from escaped [])) (reading (state_of r name.old stack.old) (joined_from escaped [])) stack.old name.new stack.new }
{
    if escaped {
        return read_byte(r, 92, name, stack);
    }
    Some(r)
}

// Reads a string's bytes without each `\` before a newline.
fn read_joined(w: &[u8], r: Reading, name: &mut [u8], stack: &mut [u8]) -> Option<Reading>
    requires { Sound r name.old stack.old }
    ensures { FedBy result r (length (joined_from false w.now)) (reading (state_of r name.old stack.old) (joined_from false w.now)) stack.old name.new stack.new }
{
    let mut q = r;
    let mut escaped = false;
    for &b in w {
        q = read_string_byte(q, escaped, b, name, stack)?;
        escaped = !escaped & (b == 92);
    }
    read_rest(q, escaped, name, stack)
}

// Reads what is stored of a token that stands between quote marks or not.
fn read_piece(
    s: &[u8],
    t: Token,
    marks: bool,
    r: Reading,
    name: &mut [u8],
    stack: &mut [u8],
) -> Option<Reading>
    requires { Sound r name.old stack.old }
    ensures { FedBy result r (length (piece s.now marks t)) (reading (state_of r name.old stack.old) (piece s.now marks t)) stack.old name.new stack.new }
{
    if (t.kind == LINE_COMMENT) | (t.kind == BLOCK_COMMENT) {
        return read_byte(r, 32, name, stack);
    }
    if t.kind == CONTINUATION {
        if marks {
            return Some(r);
        }
        return read_byte(r, 10, name, stack);
    }
    let w = part_of(s, t.at, t.end);
    if t.kind == STRING {
        return read_joined(w, r, name, stack);
    }
    read_bytes(w, r, name, stack)
}

// Whether what is stored of the text (or of a default) of a definition is bad, as it stands from `at` to before `end`.
pub fn judge_stored(
    s: &[u8],
    at: usize,
    end: usize,
    text: bool,
    name: &mut [u8],
    stack: &mut [u8],
) -> Option<bool>
    requires { 1025 ≤ length name.old }
    ensures { Settled stack.old (length s.now) None (verdict_of (is_unfit_as text (stored s.now at end))) result }
{
    let mut i = at;
    let mut q = begin(text);
    let mut marks = false;
    while i < end {
        if s.len() <= i {
            return end_verdict(q, name);
        }
        let t = token_at(s, i, in_definition(marks));
        if t.kind == NEWLINE {
            return end_verdict(q, name);
        }
        q = read_piece(s, t, marks, q, name, stack)?;
        marks = marks_after(marks, t);
        i = t.end;
    }
    end_verdict(q, name)
}

// Whether the stored text (or default) `w` is bad, white space at both ends left aside.
pub fn judge_whole(w: &[u8], text: bool, name: &mut [u8], stack: &mut [u8]) -> Option<bool>
    requires { 1025 ≤ length name.old }
    ensures { Settled stack.old (length w.now) None (verdict_of (is_unfit_as text (trim_right (trim_left w.now)))) result }
{
    let q = read_bytes(w, begin(text), name, stack)?;
    end_verdict(q, name)
}
