// What is stored of a macro's text or of a default, written into lent bytes (document 01, "Macros").
#![tactic(auto)]

ghost use Rattle.std.specs.Prelude.{◌≡◌, ◌≤◌, length, false, [], ◌∷◌};
ghost use Rattle.text.specs.Bytes.{part};
ghost use Rattle.storing.specs.Stored.{joined_from, escape_of, given, piece};
ghost use Rattle.storing.specs.Graves.{is_free, has_grave};
ghost use Rattle.storing.specs.Writing.{AddedBy, Trimmed, StoredBy};

use lex::{
    BLOCK_COMMENT, CONTINUATION, LINE_COMMENT, NEWLINE, STRING, Token, in_definition, is_space,
    marks_after, token_at,
};
use text::{holds_in, part_of};

// Each function here that adds bytes answers how far the buffer is filled then, or None where it has no room.

// Adds a byte behind the first `n`; none that is white space where nothing stands behind `from` yet.
pub fn put_byte(out: &mut [u8], from: usize, n: usize, b: u8) -> Option<usize>
    requires { (from ≤ n) × (n ≤ length out.old) }
    ensures { AddedBy result out.old out.new from n (b ∷ []) }
{
    if (n == from) & is_space(b) {
        return Some(n);
    }
    if out.len() <= n {
        return None;
    }
    out[n] = b;
    Some(n + 1)
}

// Adds the bytes of `s` from `at` to before `end`.
pub fn put_bytes(
    s: &[u8],
    at: usize,
    end: usize,
    out: &mut [u8],
    from: usize,
    n: usize,
) -> Option<usize>
    requires { (from ≤ n) × (n ≤ length out.old) }
    ensures { AddedBy result out.old out.new from n (part s.now at end) }
{
    let mut k = n;
    for &b in part_of(s, at, end) {
        k = put_byte(out, from, k, b)?;
    }
    Some(k)
}

// Adds the two bytes of an escape, `\` and `b`, or nothing where it is a `\` before a newline.
fn put_escape(out: &mut [u8], from: usize, n: usize, b: u8) -> Option<usize>
    requires { (from ≤ n) × (n ≤ length out.old) }
    ensures { AddedBy result out.old out.new from n (escape_of b) }
{
    if b == 10 {
        return Some(n);
    }
    let m = put_byte(out, from, n, 92)?;
    put_byte(out, from, m, b)
}

// Adds what byte `b` of a string gives: nothing yet for an unescaped `\`, which the next byte decides on.
fn put_string_byte(out: &mut [u8], from: usize, n: usize, escaped: bool, b: u8) -> Option<usize>
    requires { (from ≤ n) × (n ≤ length out.old) }
    ensures { AddedBy result out.old out.new from n (given escaped b) }
{
    if escaped {
        return put_escape(out, from, n, b);
    }
    if b == 92 {
        return Some(n);
    }
    put_byte(out, from, n, b)
}

// Adds the `\` that a string ends with, where one is left over.
fn put_rest(out: &mut [u8], from: usize, n: usize, escaped: bool) -> Option<usize>
    requires { (from ≤ n) × (n ≤ length out.old) }
    ensures { AddedBy result out.old out.new from n (joined_from escaped []) }
{
    if escaped {
        return put_byte(out, from, n, 92);
    }
    Some(n)
}

// Adds a string's bytes without each `\` before a newline.
pub fn put_joined(
    s: &[u8],
    at: usize,
    end: usize,
    out: &mut [u8],
    from: usize,
    n: usize,
) -> Option<usize>
    requires { (from ≤ n) × (n ≤ length out.old) }
    ensures { AddedBy result out.old out.new from n (joined_from false (part s.now at end)) }
{
    let mut k = n;
    let mut escaped = false;
    for &b in part_of(s, at, end) {
        k = put_string_byte(out, from, k, escaped, b)?;
        escaped = !escaped & (b == 92);
    }
    put_rest(out, from, k, escaped)
}

// Adds what is stored of a token that stands between quote marks or not.
fn put_piece(
    s: &[u8],
    t: Token,
    marks: bool,
    out: &mut [u8],
    from: usize,
    n: usize,
) -> Option<usize>
    requires { (from ≤ n) × (n ≤ length out.old) }
    ensures { AddedBy result out.old out.new from n (piece s.now marks t) }
{
    if (t.kind == LINE_COMMENT) | (t.kind == BLOCK_COMMENT) {
        return put_byte(out, from, n, 32);
    }
    if t.kind == CONTINUATION {
        if marks {
            return Some(n);
        }
        return put_byte(out, from, n, 10);
    }
    if t.kind == STRING {
        return put_joined(s, t.at, t.end, out, from, n);
    }
    put_bytes(s, t.at, t.end, out, from, n)
}

// The end of what is stored from `from` to before `n`, without white space at its end.
fn trim_end(out: &[u8], from: usize, n: usize) -> usize
    requires { (from ≤ n) × (n ≤ length out.now) }
    ensures { Trimmed out.now from n result }
{
    for k in (from..n).rev() {
        if !is_space(out[k]) {
            return k + 1;
        }
    }
    from
}

// Stores the text of a definition from `at` to before `end` behind the first `from` bytes.
pub fn store_text(s: &[u8], at: usize, end: usize, out: &mut [u8], from: usize) -> Option<usize>
    requires { from ≤ length out.old }
    ensures { StoredBy result s.now at end out.old out.new from }
{
    let mut i = at;
    let mut k = from;
    let mut marks = false;
    while i < end {
        if s.len() <= i {
            return Some(trim_end(out, from, k));
        }
        let t = token_at(s, i, in_definition(marks));
        if t.kind == NEWLINE {
            return Some(trim_end(out, from, k));
        }
        k = put_piece(s, t, marks, out, from, k)?;
        marks = marks_after(marks, t);
        i = t.end;
    }
    Some(trim_end(out, from, k))
}

// Whether a token is a string or a comment.
fn is_free(t: Token) -> bool
    ensures { result ≡ is_free t }
{
    (t.kind == STRING) | ((t.kind == LINE_COMMENT) | (t.kind == BLOCK_COMMENT))
}

// Whether a default as it stands from `at` to before `end` has a grave accent outside strings and comments.
pub fn has_grave(s: &[u8], at: usize, end: usize) -> bool
    ensures { result ≡ has_grave s.now at end }
{
    let mut i = at;
    let mut marks = false;
    while i < end {
        if s.len() <= i {
            return false;
        }
        let t = token_at(s, i, in_definition(marks));
        if t.kind == NEWLINE {
            return false;
        }
        if !is_free(t) & holds_in(s, t.at, t.end, 96) {
            return true;
        }
        marks = marks_after(marks, t);
        i = t.end;
    }
    false
}
