// Pending tokens (document 01, "Replacing") as references into the file and the macro bytes, and where lists are sought.
#![tactic(auto)]

ghost use Rattle.std.specs.Prelude.{◌≡◌, true, false, List, [], ◌∷◌, eqb, ℕ, ◌<◌, ◌≤◌, length, get_or};
ghost use Rattle.pending.specs.Pending.{is_spacing, is_comment, is_blank};
ghost use Rattle.pending.specs.References.{part_in, raw_of, cleaned_ref, joined_source, numbers_of, pend_of, pending_by};
ghost use Rattle.pending.specs.Sources.{items_from, last_of, SeenBy};
ghost use Rattle.pending.specs.Adding.{Takes, AddsBy};

use lex::{BLOCK_COMMENT, LINE_COMMENT, NEWLINE, STRING, WHITE, in_file, token_at};
use sets::MacroSet;
use text::{part_of, peek};

// Where a token's bytes stand: in the file, in the macro bytes, or they are one space; of a string in an argument the bytes
// joined, without each `\` and newline.
pub const FILE: usize = 0;

pub const STORE: usize = 1;

pub const SPACE: usize = 2;

pub const JOINED_FILE: usize = 3;

pub const JOINED_STORE: usize = 4;

// A pending token: its kind, where its bytes and its name stand, its set of macros.
#[derive(Clone, Copy)]
pub struct Pend {
    pub kind: usize,
    pub source: usize,
    pub start: usize,
    pub from: usize,
    pub end: usize,
    pub set: MacroSet,
}

// A token where a list is sought, with its place in a file, what bars it, and where the next begins.
#[derive(Clone, Copy)]
pub struct Item {
    pub pend: Pend,
    pub at: usize,
    pub bar: usize,
    pub next: usize,
}

// The reference of nine numbers.
pub fn pend_of(v: [u64; 9]) -> Pend
    ensures { result ≡ pend_of v }
{
    Pend {
        kind: v[0] as usize,
        source: v[1] as usize,
        start: v[2] as usize,
        from: v[3] as usize,
        end: v[4] as usize,
        set: MacroSet {
            w0: v[5],
            w1: v[6],
            w2: v[7],
            w3: v[8],
        },
    }
}

pub fn numbers_of(p: Pend) -> [u64; 9]
    ensures { result ≡ numbers_of p }
{
    let q = p.set;
    [
        p.kind as u64,
        p.source as u64,
        p.start as u64,
        p.from as u64,
        p.end as u64,
        q.w0,
        q.w1,
        q.w2,
        q.w3,
    ]
}

pub fn is_spacing(kind: usize) -> bool
    ensures { result ≡ is_spacing kind }
{
    (kind == WHITE) | (kind == NEWLINE)
}

pub fn is_comment(kind: usize) -> bool
    ensures { result ≡ is_comment kind }
{
    (kind == LINE_COMMENT) | (kind == BLOCK_COMMENT)
}

pub fn is_blank(kind: usize) -> bool
    ensures { result ≡ is_blank kind }
{
    is_spacing(kind) | is_comment(kind)
}

// The part from `i` to before `e` of what the source names.
#[tactic(auto, unfolding(crate::specs::References::part_in))]
fn part_in<'a>(s: &'a [u8], b: &'a [u8], source: usize, i: usize, e: usize) -> &'a [u8]
    ensures { result.now ≡ part_in s.now b.now source i e }
{
    if (source == FILE) | (source == JOINED_FILE) {
        return part_of(s, i, e);
    }
    if (source == STORE) | (source == JOINED_STORE) {
        return part_of(b, i, e);
    }
    &s[0..0]
}

// A token's bytes as they stand, if they are no space.
#[tactic(auto, unfolding(crate::specs::References::raw_of))]
pub fn bytes_at<'a>(s: &'a [u8], b: &'a [u8], p: Pend) -> &'a [u8]
    requires { eqb p.source 2 ≡ false }
    ensures { result.now ≡ raw_of s.now b.now p }
{
    part_in(s, b, p.source, p.start, p.end)
}

#[tactic(auto, unfolding(crate::specs::References::raw_of))]
pub fn first_byte<'a>(s: &'a [u8], b: &'a [u8], p: Pend) -> u8
    ensures { result ≡ get_or (raw_of s.now b.now p) 0 0 }
{
    if p.source == SPACE {
        return 32;
    }
    peek(bytes_at(s, b, p), 0)
}

// A token's name, without grave accent and `\`.
#[tactic(auto, unfolding(crate::specs::References::pending_by))]
pub fn name_of<'a>(s: &'a [u8], b: &'a [u8], p: Pend) -> &'a [u8]
    ensures { result.now ≡ (pending_by s.now b.now p).name }
{
    part_in(s, b, p.source, p.from, p.end)
}

fn joined_source(k: usize) -> usize
    ensures { result ≡ joined_source k }
{
    if k == FILE {
        return JOINED_FILE;
    }
    if k == STORE { JOINED_STORE } else { k }
}

// A token as a part of an argument: a comment is one space, a string is joined.
pub fn clean(p: Pend) -> Pend
    ensures { result ≡ cleaned_ref p }
{
    let q = p.set;
    if is_comment(p.kind) {
        return Pend {
            kind: WHITE,
            source: SPACE,
            start: 0,
            from: 0,
            end: 0,
            set: q,
        };
    }
    if p.kind == STRING {
        return Pend {
            kind: p.kind,
            source: joined_source(p.source),
            start: p.start,
            from: p.from,
            end: p.end,
            set: q,
        };
    }
    p
}

// The token of the file at `i`, if the file does not end there.
fn file_item(s: &[u8], i: usize) -> Option<Item>
    ensures { (b : List ℕ) (l : List (List ℕ)) (n : ℕ) → SeenBy result s.now b (items_from s.now b l n true) (length s.now) i }
{
    if s.len() <= i {
        return None;
    }
    let t = token_at(s, i, in_file());
    Some(Item {
        pend: Pend {
            kind: t.kind,
            source: FILE,
            start: t.at,
            from: t.from,
            end: t.end,
            set: sets::empty(),
        },
        at: t.at,
        bar: t.bar,
        next: t.end,
    })
}

// The token behind the first `i` of the pending list of the first `n` references, if there is one.
fn list_item(list: &[[u64; 9]], n: usize, i: usize) -> Option<Item>
    requires { n ≤ length list.now }
    ensures { (s b : List ℕ) → SeenBy result s b (items_from s b list.now n false) n i }
{
    if n <= i {
        return None;
    }
    Some(Item {
        pend: pend_of(list[n - i - 1]),
        at: 0,
        bar: 0,
        next: i + 1,
    })
}

// The token at position `i` of the file, or of the pending list of the first `n` references, if there is one.
pub fn item_at(s: &[u8], list: &[[u64; 9]], n: usize, file: bool, i: usize) -> Option<Item>
    requires { n ≤ length list.now }
    ensures { (b : List ℕ) → SeenBy result s.now b (items_from s.now b list.now n file) (last_of s.now n file) i }
{
    if file {
        return file_item(s, i);
    }
    list_item(list, n, i)
}

// Adds a reference behind the first `n` of `out`, if these are fewer than `most`: how many there are then.
pub fn push(out: &mut [[u64; 9]], most: usize, n: usize, p: Pend) -> Option<usize>
    requires { Takes out.old most n }
    ensures { (s b : List ℕ) → AddsBy result s b out.old out.new most n (pending_by s b p ∷ []) }
{
    if most <= n {
        return None;
    }
    out[n] = numbers_of(p);
    Some(n + 1)
}
