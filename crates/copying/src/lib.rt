// Tokens that are no directives and no usages (document 01: "All else is copied"), copied from a file or skipped in ignored text.
#![tactic(auto)]

ghost use Rattle.std.specs.Prelude.{◌≡◌, false, cond, not, ◌&&◌, ◌||◌, [], ◌∷◌, ℕ, ◌+◌, ◌<◌, ◌≤◌, eqb, length};
ghost use Rattle.std.proofs.lemmas.List.Edits.{sets};
ghost use Rattle.lex.specs.Classes.{is_white};
ghost use Rattle.lex.specs.Tokens.{LineComment, String};
ghost use Rattle.places.specs.Places.{newlines};
ghost use Rattle.writing.specs.Written.{placed};
ghost use Rattle.writing.specs.Buffers.{Writable, WroteBy};
ghost use Rattle.copying.specs.Cursors.{is_gap_kind, is_single, may_wrap, stops_at};
ghost use Rattle.copying.specs.Copying.{Reads, Copyable, CopiedBy, SkipsTo};

use lex::{
    BLOCK_COMMENT, END, GRAVE, LINE_COMMENT, NEWLINE, STRING, Token, WHITE, in_file, is_white,
    token_at,
};
use places::newlines_in;
use text::{part_of, peek};
use writing::{Spot, Wrote, write_whole};

// Where a file is read: offset and line; whether other text than white bytes and comments stands before on the line; whether
// the file ends in a copied `//` comment.
#[derive(Clone, Copy)]
pub struct Cursor {
    pub at: usize,
    pub line: usize,
    pub other: bool,
    pub comment: bool,
}

// Where reading and writing stand before a token that is not copied; or there is no room for one. An enum and no `Result`,
// which is no plainer: both say where reading and writing stand.
#[derive(Clone, Copy)]
pub enum Copied {
    Upto(Cursor, Spot, Token),
    Full(Cursor, Spot, usize),
}

// Where reading stands before a token that is not skipped.
#[derive(Clone, Copy)]
pub struct Skipped {
    pub cursor: Cursor,
    pub token: Token,
}

fn is_gap(kind: usize) -> bool
    ensures { result ≡ is_gap_kind kind }
{
    (kind == WHITE) | ((kind == LINE_COMMENT) | (kind == BLOCK_COMMENT))
}

fn may_wrap(kind: usize) -> bool
    ensures { result ≡ may_wrap kind }
{
    (kind == NEWLINE) | ((kind == STRING) | (kind == BLOCK_COMMENT))
}

// A token that is neither copied nor skipped.
fn stops(t: Token) -> bool
    ensures { result ≡ stops_at t }
{
    (t.kind == GRAVE) | ((t.kind == END) | (t.bar != 0))
}

// A byte that is always a token of its own.
fn is_single(b: u8) -> bool
    ensures { result ≡ is_single b }
{
    (is_white(b) | (b == 10))
        | (((37 <= b) & (b <= 38))
            | (((40 <= b) & (b <= 46))
                | (((58 <= b) & (b <= 64)) | ((b == 91) | ((93 <= b) & (b <= 94))))))
}

// Behind a token that holds no newline; `last`: where a `//` comment ends the file.
fn past_plain(t: Token, last: usize, c: Cursor) -> Cursor
    ensures { result ≡ record { at = t.end; line = c.line; other = c.other || not (is_gap_kind t.kind); comment = eqb t.kind LineComment && eqb t.end last } }
{
    Cursor {
        at: t.end,
        line: c.line,
        other: c.other | !is_gap(t.kind),
        comment: (t.kind == LINE_COMMENT) & (t.end == last),
    }
}

// Behind a newline, a string or a block comment of the bytes `w`.
fn past_lines(t: Token, w: &[u8], c: Cursor) -> Cursor
    requires { (c.line ≤ 65536) × (length w.now ≤ 65535) }
    ensures { result ≡ record { at = t.end; line = c.line + newlines w.now; other = eqb t.kind String || (c.other && eqb (newlines w.now) 0); comment = false } }
{
    let n = newlines_in(w);
    Cursor {
        at: t.end,
        line: c.line + n,
        other: (t.kind == STRING) | (c.other & (n == 0)),
        comment: false,
    }
}

// Copies bytes that have room.
fn copy_bytes(w: &[u8], text: &mut [u8], n: usize)
    requires { n + length w.now ≤ length text.old }
    ensures { text.new ≡ sets text.old n w.now }
{
    text[n..n + w.len()].copy_from_slice(w);
}

// Writes `w`, which has no newline and is not empty, whole.
fn write_plain(w: &[u8], place: u32, text: &mut [u8], map: &mut [u32], z: Spot) -> Wrote
    requires { Writable w.now place 0 text.old map.old z × (0 < length w.now) × (newlines w.now ≡ 0) }
    ensures { (step : ℕ) → WroteBy result (placed step place w.now) text.old text.new map.old map.new z }
{
    let n = z.written;
    if text.len() - n < w.len() {
        return Wrote::Full(19);
    }
    let l = z.lines;
    if z.fresh {
        if map.len() <= l {
            return Wrote::Full(20);
        }
        map[l] = place;
        copy_bytes(w, text, n);
        return Wrote::Upto(Spot {
            written: n + w.len(),
            lines: l + 1,
            fresh: false,
        });
    }
    copy_bytes(w, text, n);
    Wrote::Upto(Spot {
        written: n + w.len(),
        lines: l,
        fresh: false,
    })
}

// Writes one byte.
fn write_one(b: u8, place: u32, text: &mut [u8], map: &mut [u32], z: Spot) -> Wrote
    requires { Writable (b ∷ []) place 0 text.old map.old z }
    ensures { (step : ℕ) → WroteBy result (placed step place (b ∷ [])) text.old text.new map.old map.new z }
{
    let n = z.written;
    if text.len() <= n {
        return Wrote::Full(19);
    }
    let l = z.lines;
    if z.fresh {
        if map.len() <= l {
            return Wrote::Full(20);
        }
        map[l] = place;
        text[n] = b;
        return Wrote::Upto(Spot {
            written: n + 1,
            lines: l + 1,
            fresh: b == 10,
        });
    }
    text[n] = b;
    Wrote::Upto(Spot {
        written: n + 1,
        lines: l,
        fresh: b == 10,
    })
}

fn past_newline(c: Cursor) -> Cursor
    requires { (c.at < 65535) × (c.line ≤ 65536) }
    ensures { result ≡ record { at = c.at + 1; line = c.line + 1; other = false; comment = false } }
{
    Cursor {
        at: c.at + 1,
        line: c.line + 1,
        other: false,
        comment: false,
    }
}

// Behind a byte that is a token of its own.
fn past_byte(b: u8, c: Cursor) -> Cursor
    requires { (c.at < 65535) × (c.line ≤ 65536) }
    ensures { result ≡ cond (eqb b 10) (record { at = c.at + 1; line = c.line + 1; other = false; comment = false }) (record { at = c.at + 1; line = c.line; other = c.other || not (is_white b); comment = false }) }
{
    if b == 10 {
        return past_newline(c);
    }
    Cursor {
        at: c.at + 1,
        line: c.line,
        other: c.other | !is_white(b),
        comment: false,
    }
}

fn write_token(t: Token, w: &[u8], place: u32, text: &mut [u8], map: &mut [u32], z: Spot) -> Wrote
    requires { Writable w.now place 1 text.old map.old z × (0 < length w.now) × (may_wrap t.kind ≡ false → newlines w.now ≡ 0) }
    ensures { WroteBy result (placed 1 place w.now) text.old text.new map.old map.new z }
{
    if may_wrap(t.kind) {
        return write_whole(w, place, 1, text, map, z);
    }
    write_plain(w, place, text, map, z)
}

fn past_token(t: Token, w: &[u8], last: usize, c: Cursor) -> Cursor
    requires { (c.line ≤ 65536) × (length w.now ≤ 65535) }
    ensures { result ≡ cond (may_wrap t.kind) (record { at = t.end; line = c.line + newlines w.now; other = eqb t.kind String || (c.other && eqb (newlines w.now) 0); comment = false }) (record { at = t.end; line = c.line; other = c.other || not (is_gap_kind t.kind); comment = eqb t.kind LineComment && eqb t.end last }) }
{
    if may_wrap(t.kind) {
        return past_lines(t, w, c);
    }
    past_plain(t, last, c)
}

// Copies tokens up to one that begins with a grave accent, is barred, or up to the end.
pub fn copy_tokens(
    s: &[u8],
    base: u32,
    text: &mut [u8],
    map: &mut [u32],
    start: Cursor,
    spot: Spot,
) -> Copied
    requires { Copyable s.now base text.old map.old start spot }
    ensures { CopiedBy result s.now base text.old text.new map.old map.new start spot }
{
    let mut c = start;
    let mut z = spot;
    loop {
        let at = c.at;
        let b = peek(s, at);
        let place = base + c.line as u32;
        if is_single(b) {
            let r = write_one(b, place, text, map, z);
            match r {
                Wrote::Upto(y) => {
                    z = y;
                    c = past_byte(b, c);
                    continue;
                }
                Wrote::Full(k) => {
                    return Copied::Full(c, z, k);
                }
            }
        }
        let t = token_at(s, at, in_file());
        if stops(t) {
            return Copied::Upto(c, z, t);
        }
        let w = part_of(s, at, t.end);
        let r = write_token(t, w, place, text, map, z);
        match r {
            Wrote::Upto(y) => {
                z = y;
                c = past_token(t, w, s.len(), c);
                continue;
            }
            Wrote::Full(k) => {
                return Copied::Full(c, z, k);
            }
        }
    }
}

// Skips tokens up to one that begins with a grave accent, is barred, or up to the end.
pub fn skip_tokens(s: &[u8], start: Cursor) -> Skipped
    requires { Reads s.now 0 start }
    ensures { SkipsTo s.now 0 start result }
{
    let mut c = start;
    loop {
        let at = c.at;
        let b = peek(s, at);
        if is_single(b) {
            c = past_byte(b, c);
            continue;
        }
        let t = token_at(s, at, in_file());
        if stops(t) {
            return Skipped {
                cursor: c,
                token: t,
            };
        }
        c = past_token(t, part_of(s, at, t.end), 0, c);
    }
}
