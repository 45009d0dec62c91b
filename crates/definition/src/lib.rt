// Reading a `define` (document 01, "Macros"): its extent, what bars it, its head and formal list, and whether it is bad.
#![tactic(auto)]

ghost use Rattle.std.specs.Prelude.{Err, None, ◌≡◌, List, [], ℕ, ◌*◌, ◌≤◌, length};
ghost use Rattle.lex.specs.Faults.{no_fault};
ghost use Rattle.text.specs.Bytes.{part};
ghost use Rattle.storing.specs.Stored.{stored};
ghost use Rattle.brackets.specs.Stacks.{stack_of, SteppedBy, Settled};
ghost use Rattle.afresh.specs.Judging.{bad_text};
ghost use Rattle.afresh.specs.Feeding.{verdict_of};
ghost use Rattle.definition.specs.Extents.{mark_of, extent_at, bars_of, Free};
ghost use Rattle.definition.specs.Heads.{gap_end, open_at, head_at};
ghost use Rattle.definition.specs.Heads.{head as head_of};
ghost use Rattle.definition.specs.Lists.{step_at, default_end, given_formal, formal_at, formals_at, behind, whole};
ghost use Rattle.definition.specs.Definitions.{bad_formal, named, bad_among, bad_formals, is_bad, shape_by, judged_by, definition_at};
ghost use Rattle.definition.specs.Answers.{FreeDefault, list_of, judged_of};

use brackets::{Stepped, step};
use judging::judge_stored;
use lex::{
    BYTE, ESCAPED, ESCAPED_QUOTE, Fault, JOINER, NAME, NEWLINE, QUOTE, Token, WHITE, fault_of,
    in_definition, is_byte, is_gap, marks_after, token_at, worse,
};
use names::directive_of;
use storing::has_grave;
use text::{part_of, peek, same};

// How far a definition reaches, what bars it, and the first joiner or quote mark in it, which bars it outside macro text.
#[derive(Clone, Copy)]
pub struct Extent {
    pub end: usize,
    pub bars: Fault,
    pub mark: Fault,
}

// A definition's name, and whether a formal list starts at `next`, or else the macro text does.
#[derive(Clone, Copy)]
pub struct Head {
    pub whole: bool,
    pub from: usize,
    pub end: usize,
    pub listed: bool,
    pub next: usize,
}

// Why a default, a formal or a formal list was not read: it is ill-formed, or the lent bytes have no room for its brackets.
#[derive(Clone, Copy, PartialEq, Eq)]
pub enum ReadError {
    IllFormed,
    NoRoom,
}

// A formal's name; its default, where one is given; the index past the `,` or `)` behind it; whether that is the `)`.
#[derive(Clone, Copy)]
pub struct Formal {
    pub from: usize,
    pub end: usize,
    pub given: bool,
    pub first: usize,
    pub stop: usize,
    pub next: usize,
    pub last: bool,
}

// A definition: barred by 2 to 6 at a place; bad (11) or good, with its end; or the lent bytes are too few to tell.
#[derive(Clone, Copy)]
pub enum Judged {
    Barred(usize, usize),
    Bad(usize),
    Good(usize),
    Short,
}

fn no_fault() -> Fault
    ensures { result ≡ no_fault }
{
    Fault {
        number: 0,
        place: 0,
    }
}

// The first joiner or quote mark, where `f` is the one before the token `t`.
fn mark_of(f: Fault, t: Token) -> Fault
    ensures { result ≡ mark_of f t }
{
    if f.number != 0 {
        return f;
    }
    if (t.kind == QUOTE) | ((t.kind == ESCAPED_QUOTE) | (t.kind == JOINER)) {
        return Fault {
            number: 4,
            place: t.at,
        };
    }
    no_fault()
}

// The extent of the definition whose word ends at `at`.
pub fn extent_at(s: &[u8], at: usize) -> Extent
    ensures { result ≡ extent_at s.now at }
{
    let mut i = at;
    let mut marks = false;
    let mut bars = no_fault();
    let mut mark = no_fault();
    while i < s.len() {
        let t = token_at(s, i, in_definition(marks));
        if t.kind == NEWLINE {
            return Extent { end: i, bars, mark };
        }
        bars = worse(bars, fault_of(t));
        mark = mark_of(mark, t);
        marks = marks_after(marks, t);
        i = t.end;
    }
    Extent { end: i, bars, mark }
}

// What bars a definition whose macro text begins at `text`, where a joiner or quote mark before it bars too.
fn bars_of(w: Extent, text: usize) -> Fault
    ensures { result ≡ bars_of w text }
{
    let mark = w.mark;
    let bars = w.bars;
    if text <= mark.place {
        return bars;
    }
    if bars.place < mark.place {
        return worse(bars, mark);
    }
    worse(mark, bars)
}

// Past the spacing from `at` on.
fn gap_end(s: &[u8], at: usize) -> usize
    ensures { result ≡ gap_end s.now at }
{
    let mut i = at;
    while i < s.len() {
        let t = token_at(s, i, in_definition(false));
        if !is_gap(t) {
            return i;
        }
        i = t.end;
    }
    i
}

// Where a formal list opens, if one does, behind the name `t`.
fn open_at(s: &[u8], t: Token) -> usize
    requires { t.end ≤ length s.now }
    ensures { result ≡ open_at s.now t }
{
    let u = token_at(s, t.end, in_definition(false));
    if (t.kind == ESCAPED) & (u.kind == WHITE) {
        return t.end + 1;
    }
    t.end
}

fn make_head(t: Token, listed: bool, next: usize) -> Head
    ensures { result ≡ head_of t listed next }
{
    Head {
        whole: true,
        from: t.from,
        end: t.end,
        listed,
        next,
    }
}

// The head of the definition whose word ends at `at`.
pub fn head_at(s: &[u8], at: usize) -> Head
    ensures { result ≡ head_at s.now at }
{
    let t = token_at(s, gap_end(s, at), in_definition(false));
    if !((t.kind == NAME) | (t.kind == ESCAPED)) {
        return Head {
            whole: false,
            from: 0,
            end: 0,
            listed: false,
            next: 0,
        };
    }
    let p = open_at(s, t);
    let u = token_at(s, p, in_definition(false));
    if is_byte(s, u, 40) {
        return make_head(t, true, p + 1);
    }
    make_head(t, false, t.end)
}

// What a token does in a default.
fn step_at(s: &[u8], t: Token, stack: &mut [u8], depth: usize) -> Stepped
    requires { depth ≤ 4 * length stack.old }
    ensures { SteppedBy result (step_at s.now t (stack_of stack.old depth)) stack.old stack.new depth }
{
    if t.kind == QUOTE {
        return Stepped::Torn;
    }
    if t.kind == BYTE {
        return step(stack, depth, peek(s, t.at));
    }
    Stepped::On(depth)
}

// Where the default that starts at `at` ends, and past the `,` or `)` that ends it.
fn default_end(s: &[u8], at: usize, stack: &mut [u8]) -> Result<(usize, usize), ReadError>
    ensures { Settled stack.old (length s.now) (Err ReadError.NoRoom) (default_end s.now at) result }
{
    let mut i = at;
    let mut depth = 0;
    while i < s.len() {
        let t = token_at(s, i, in_definition(false));
        if t.kind == NEWLINE {
            return Err(ReadError::IllFormed);
        }
        let r = step_at(s, t, stack, depth);
        match r {
            Stepped::On(d) => {
                depth = d;
                i = t.end;
            }
            Stepped::Done => return Ok((t.at, t.end)),
            Stepped::Torn => return Err(ReadError::IllFormed),
            Stepped::Short => return Err(ReadError::NoRoom),
        }
    }
    Err(ReadError::IllFormed)
}

// The formal `t`, whose default starts at `at`.
fn given_formal(s: &[u8], t: Token, at: usize, stack: &mut [u8]) -> Result<Formal, ReadError>
    ensures { Settled stack.old (length s.now) (Err ReadError.NoRoom) (given_formal s.now t at (default_end s.now at)) result }
{
    let (stop, next) = default_end(s, at, stack)?;
    Ok(Formal {
        from: t.from,
        end: t.end,
        given: true,
        first: at,
        stop,
        next,
        last: peek(s, stop) == 41,
    })
}

// The formal at `at`.
pub fn formal_at(s: &[u8], at: usize, stack: &mut [u8]) -> Result<Formal, ReadError>
    ensures { Settled stack.old (length s.now) (Err ReadError.NoRoom) (formal_at s.now at) result }
{
    let t = token_at(s, gap_end(s, at), in_definition(false));
    if t.kind != NAME {
        return Err(ReadError::IllFormed);
    }
    let u = token_at(s, gap_end(s, t.end), in_definition(false));
    if is_byte(s, u, 61) {
        return given_formal(s, t, u.end, stack);
    }
    let last = is_byte(s, u, 41);
    if is_byte(s, u, 44) | last {
        return Ok(Formal {
            from: t.from,
            end: t.end,
            given: false,
            first: 0,
            stop: 0,
            next: u.end,
            last,
        });
    }
    Err(ReadError::IllFormed)
}

// The number of formals of the list from `at` on, and its end.
pub fn list_at(s: &[u8], at: usize, stack: &mut [u8]) -> Result<(usize, usize), ReadError>
    ensures { Settled stack.old (length s.now) (Err ReadError.NoRoom) (list_of (formals_at s.now at)) result }
{
    let mut i = at;
    let mut n = 0;
    while i < s.len() {
        let f = formal_at(s, i, stack)?;
        n += 1;
        i = f.next;
        if f.last {
            return Ok((n, i));
        }
    }
    Err(ReadError::IllFormed)
}

// Whether a formal of the list from `at` on has the name from `from` to before `end`. Here and below None says that the
// lent bytes have no room for the brackets; the list is one that was read whole, so a formal of it is never ill-formed.
fn named_later(s: &[u8], from: usize, end: usize, at: usize, stack: &mut [u8]) -> Option<bool>
    ensures { (fs : List Formal) (e : ℕ) → formals_at s.now at ≡ whole fs e → Settled stack.old (length s.now) None (verdict_of (named s.now (part s.now from end) fs)) result }
{
    let mut i = at;
    while i < s.len() {
        let f = formal_at(s, i, stack).ok()?;
        if same(part_of(s, from, end), part_of(s, f.from, f.end)) {
            return Some(true);
        }
        if f.last {
            return Some(false);
        }
        i = f.next;
    }
    Some(false)
}

// Whether the default of a formal that was read, which nothing bars, is bad.
fn default_verdict(s: &[u8], f: Formal, name: &mut [u8], stack: &mut [u8]) -> Option<bool>
    requires { 1025 ≤ length name.old }
    ensures { FreeDefault s.now f → Settled stack.old (length s.now) None (verdict_of (bad_formal s.now f)) result }
{
    if !f.given {
        return Some(false);
    }
    if has_grave(s, f.first, f.stop) {
        return Some(true);
    }
    judge_stored(s, f.first, f.stop, false, name, stack)
}

// Whether a formal is bad: its default, or one of those behind it has its name.
fn formal_verdict(s: &[u8], f: Formal, name: &mut [u8], stack: &mut [u8]) -> Option<bool>
    requires { 1025 ≤ length name.old }
    ensures { (fs : List Formal) (e : ℕ) → behind s.now f ≡ whole fs e → FreeDefault s.now f → Settled stack.old (length s.now) None (verdict_of (bad_among s.now f fs)) result }
{
    if default_verdict(s, f, name, stack)? {
        return Some(true);
    }
    if f.last {
        return Some(false);
    }
    named_later(s, f.from, f.end, f.next, stack)
}

// Whether a formal of the list from `at` on is bad.
fn formals_verdict(s: &[u8], at: usize, name: &mut [u8], stack: &mut [u8]) -> Option<bool>
    requires { 1025 ≤ length name.old }
    ensures { (fs : List Formal) (e : ℕ) → formals_at s.now at ≡ whole fs e → Free s.now at → Settled stack.old (length s.now) None (verdict_of (bad_formals s.now fs)) result }
{
    let mut i = at;
    while i < s.len() {
        let f = formal_at(s, i, stack).ok()?;
        if formal_verdict(s, f, name, stack)? {
            return Some(true);
        }
        if f.last {
            return Some(false);
        }
        i = f.next;
    }
    Some(false)
}

// Whether the macro text from `at` to before `end`, which nothing bars, is bad.
fn text_verdict(s: &[u8], at: usize, end: usize, name: &mut [u8], stack: &mut [u8]) -> Option<bool>
    requires { 1025 ≤ length name.old }
    ensures { Free s.now at → Settled stack.old (length s.now) None (verdict_of (bad_text (stored s.now at end))) result }
{
    judge_stored(s, at, end, true, name, stack)
}

// The number of formals of a head, and where the macro text begins.
pub fn shape_of(s: &[u8], h: Head, stack: &mut [u8]) -> Result<(usize, usize), ReadError>
    ensures { Settled stack.old (length s.now) (Err ReadError.NoRoom) (list_of (shape_by s.now h)) result }
{
    if !h.whole {
        return Err(ReadError::IllFormed);
    }
    if !h.listed {
        return Ok((0, h.next));
    }
    list_at(s, h.next, stack)
}

// Whether the formals of a head are bad.
fn head_verdict(s: &[u8], h: Head, name: &mut [u8], stack: &mut [u8]) -> Option<bool>
    requires { 1025 ≤ length name.old }
    ensures { (fs : List Formal) (x : ℕ) → shape_by s.now h ≡ whole fs x → Free s.now h.next → Settled stack.old (length s.now) None (verdict_of (bad_formals s.now fs)) result }
{
    if !h.listed {
        return Some(false);
    }
    formals_verdict(s, h.next, name, stack)
}

// Whether a definition with `count` formals, whose text reaches from `text` to `end`, is bad.
fn verdict_of(
    s: &[u8],
    h: Head,
    count: usize,
    text: usize,
    end: usize,
    name: &mut [u8],
    stack: &mut [u8],
) -> Option<bool>
    requires { 1025 ≤ length name.old }
    ensures { (fs : List Formal) → shape_by s.now h ≡ whole fs text → count ≡ length fs → Free s.now h.next → Settled stack.old (length s.now) None (verdict_of (is_bad s.now (part s.now h.from h.end) fs (stored s.now text end))) result }
{
    if 0 < directive_of(part_of(s, h.from, h.end)) {
        return Some(true);
    }
    if 16 < count {
        return Some(true);
    }
    if head_verdict(s, h, name, stack)? {
        return Some(true);
    }
    text_verdict(s, text, end, name, stack)
}

// Judges a definition that nothing bars and whose head is whole.
fn judge_whole(
    s: &[u8],
    h: Head,
    count: usize,
    text: usize,
    end: usize,
    name: &mut [u8],
    stack: &mut [u8],
) -> Judged
    requires { 1025 ≤ length name.old }
    ensures { (fs : List Formal) → shape_by s.now h ≡ whole fs text → count ≡ length fs → Free s.now h.next → Settled stack.old (length s.now) Judged.Short (judged_of (judged_by s.now h end (whole fs text))) result }
{
    match verdict_of(s, h, count, text, end, name, stack) {
        Some(true) => Judged::Bad(end),
        Some(false) => Judged::Good(end),
        None => Judged::Short,
    }
}

// Judges the definition whose word ends at `at`, with bytes for a name, 1,025 of them, and for brackets, a quarter of the text's.
pub fn judge_definition(s: &[u8], at: usize, name: &mut [u8], stack: &mut [u8]) -> Judged
    requires { 1025 ≤ length name.old }
    ensures { Settled stack.old (length s.now) Judged.Short (judged_of (definition_at s.now at)) result }
{
    let w = extent_at(s, at);
    let h = head_at(s, at);
    match shape_of(s, h, stack) {
        Ok((n, text)) => {
            let f = bars_of(w, text);
            if f.number != 0 {
                return Judged::Barred(f.number, f.place);
            }
            judge_whole(s, h, n, text, w.end, name, stack)
        }
        Err(ReadError::IllFormed) => {
            let f = bars_of(w, s.len());
            if f.number != 0 {
                return Judged::Barred(f.number, f.place);
            }
            Judged::Bad(w.end)
        }
        Err(ReadError::NoRoom) => Judged::Short,
    }
}
