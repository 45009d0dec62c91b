// Argument lists (document 01, "Replacing"): sought in the pending list, or in the file for the first usage. An argument is four
// numbers: from where to before where it stands there, and in the replacement; `1, 0` as long as it was not put in place.
#![tactic(auto)]

ghost use Rattle.std.specs.Prelude.{◌≡◌, [], ◌∷◌, ◌*◌, ◌<◌, ◌≤◌, length, set};
ghost use Rattle.brackets.specs.Stacks.{stack_of};
ghost use Rattle.pending.specs.Pending.{byte_view, kind_view, view};
ghost use Rattle.pending.specs.Sources.{items_from, last_of, item_of};
ghost use Rattle.arguments.specs.Arguments.{move_of, collect, seek};
ghost use Rattle.arguments.specs.Moving.{MovedBy};
ghost use Rattle.arguments.specs.Ranges.{OpenedBy, SoughtBy, Listable};

use brackets::{Stepped, step};
use lex::{BYTE, Fault, GRAVE, QUOTE};
use names::directive_of;
use pending::{Item, first_byte, is_blank, item_at, name_of};

// What a token does in a list: a part of the argument, with so many closing brackets due behind it; ends the argument; ends
// the list; refused, with the place of 2 to 6.
#[derive(Clone, Copy)]
pub enum Move {
    Keep(usize),
    Part,
    Close,
    Fail(usize, usize),
}

// No list, or one that does not end.
const UNFINISHED: Fault = Fault {
    number: 14,
    place: 0,
};

// What the byte `b`, a token of its own, does in a list.
fn byte_move(b: u8, stack: &mut [u8], depth: usize) -> Move
    requires { (depth < 4 * length stack.old) × (depth < 65536) }
    ensures { MovedBy result (move_of (byte_view b) (stack_of stack.old depth)) stack.old stack.new depth }
{
    let r = step(stack, depth, b);
    match r {
        Stepped::On(d) => Move::Keep(d),
        Stepped::Done => {
            if b == 44 {
                return Move::Part;
            }
            Move::Close
        }
        Stepped::Torn => Move::Fail(14, 0),
        Stepped::Short => Move::Fail(14, 0),
    }
}

// What a token that nothing bars does in a list.
fn kind_move(kind: usize, b: u8, name: &[u8], stack: &mut [u8], depth: usize) -> Move
    requires { (depth < 4 * length stack.old) × (depth < 65536) }
    ensures { MovedBy result (move_of (kind_view kind b name.now) (stack_of stack.old depth)) stack.old stack.new depth }
{
    if kind == BYTE {
        return byte_move(b, stack, depth);
    }
    if kind == QUOTE {
        return Move::Fail(14, 0);
    }
    if kind == GRAVE {
        if 2 < directive_of(name) {
            return Move::Fail(14, 0);
        }
        return Move::Keep(depth);
    }
    Move::Keep(depth)
}

// What a token does in a list.
fn move_of<'a>(s: &'a [u8], b: &'a [u8], t: Item, stack: &mut [u8], depth: usize) -> Move
    requires { (depth < 4 * length stack.old) × (depth < 65536) }
    ensures { MovedBy result (move_of (view (item_of s.now b.now t)) (stack_of stack.old depth)) stack.old stack.new depth }
{
    if t.bar != 0 {
        return Move::Fail(t.bar, t.at);
    }
    let p = t.pend;
    kind_move(p.kind, first_byte(s, b, p), name_of(s, b, p), stack, depth)
}

// Past white space, newlines and comments, to behind a `(`.
fn open_at<'a>(
    s: &'a [u8],
    b: &'a [u8],
    list: &[[u64; 9]],
    n: usize,
    file: bool,
    at: usize,
) -> Result<usize, Fault>
    requires { n ≤ length list.now }
    ensures { OpenedBy result (items_from s.now b.now list.now n file) (last_of s.now n file) at }
{
    let mut i = at;
    while let Some(t) = item_at(s, list, n, file, i) {
        if t.bar != 0 {
            return Err(Fault {
                number: t.bar,
                place: t.at,
            });
        }
        let p = t.pend;
        if !is_blank(p.kind) {
            let opens = p.kind == BYTE && first_byte(s, b, p) == 40;
            return if opens { Ok(t.next) } else { Err(UNFINISHED) };
        }
        i = t.next;
    }
    Err(UNFINISHED)
}

// Notes the range of argument `k`, which was not put in place yet, if there is one for it.
fn note(ranges: &mut [[usize; 4]], k: usize, from: usize, to: usize)
    ensures { ranges.new ≡ set ranges.old k (from ∷ to ∷ 1 ∷ 0 ∷ []) }
{
    if k < ranges.len() {
        ranges[k] = [from, to, 1, 0];
    }
}

// The list behind its `(`: how many arguments it has, and where it ends.
fn list_at<'a>(
    s: &'a [u8],
    b: &'a [u8],
    list: &[[u64; 9]],
    n: usize,
    file: bool,
    at: usize,
    ranges: &mut [[usize; 4]],
    stack: &mut [u8],
) -> Result<(usize, usize), Fault>
    requires { Listable s.now list.now n (last_of s.now n file) at stack.old }
    ensures { SoughtBy result (collect (items_from s.now b.now list.now n file at) []) (items_from s.now b.now list.now n file) (last_of s.now n file) ranges.new }
{
    let mut i = at;
    let mut from = at;
    let mut k = 0;
    let mut depth = 0;
    while let Some(t) = item_at(s, list, n, file, i) {
        match move_of(s, b, t, stack, depth) {
            Move::Keep(d) => depth = d,
            Move::Part => {
                note(ranges, k, from, i);
                k += 1;
                from = t.next;
            }
            Move::Close => {
                note(ranges, k, from, i);
                return Ok((k + 1, t.next));
            }
            Move::Fail(number, place) => return Err(Fault { number, place }),
        }
        i = t.next;
    }
    Err(UNFINISHED)
}

// The list of a usage whose word ends at `at`: how many arguments it has, and where it ends; or refused, with the place of 2 to 6.
pub fn seek_list<'a>(
    s: &'a [u8],
    b: &'a [u8],
    list: &[[u64; 9]],
    n: usize,
    file: bool,
    at: usize,
    ranges: &mut [[usize; 4]],
    stack: &mut [u8],
) -> Result<(usize, usize), Fault>
    requires { Listable s.now list.now n (last_of s.now n file) at stack.old }
    ensures { SoughtBy result (seek (items_from s.now b.now list.now n file at)) (items_from s.now b.now list.now n file) (last_of s.now n file) ranges.new }
{
    let i = open_at(s, b, list, n, file, at)?;
    list_at(s, b, list, n, file, i, ranges, stack)
}
