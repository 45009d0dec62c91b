// A stored text or default read afresh, one byte at a time, and what makes it bad (document 01, "Bad definition").
#![tactic(auto)]

ghost use Rattle.std.specs.Prelude.{Some, ◌≡◌, true, false, not, List, ℕ, ◌*◌, ◌≤◌, length};
ghost use Rattle.afresh.specs.States.{naming, longer, single, fresh, closed, in_word, in_solid, in_doubt, in_line, in_accent, in_slanted, in_twice, in_tick, in_run, in_string, is_string, in_marked, in_short, outside, next, leaves, ended, spoilt};
ghost use Rattle.afresh.specs.States.{sign as sign_of};
ghost use Rattle.afresh.specs.Feeding.{state_of, Sound, FedBy, verdict_of};

use brackets::{Stepped, step};
use lex::{is_base, is_digit, is_legal, is_run, is_sign, is_space, is_start, is_white};
use names::directive_of;
use text::part_of;

// The states are numbers, and no enum: the definitions of specs/States.antt, which may not change, speak of them so.
const START: usize = 0;

const WORD: usize = 1;

const RUN: usize = 2;

const BASED: usize = 3;

const TICK: usize = 4;

const SIGN: usize = 5;

const OPEN: usize = 6;

const WITHIN: usize = 7;

const ESCAPE: usize = 8;

const PAIR: usize = 9;

const SLASH: usize = 10;

const SOLID: usize = 11;

const DOUBT: usize = 12;

const LINE: usize = 13;

const ACCENT: usize = 14;

const SLANTED: usize = 15;

const TWICE: usize = 16;

const BAD: usize = 17;

// A reading of a text, or else of a default: its state, whether it stands between quote marks, whether a name stands
// behind a grave accent, how many bytes the name has so far, how many closing brackets are due.
#[derive(Clone, Copy)]
pub struct Reading {
    pub state: usize,
    pub text: bool,
    pub marks: bool,
    pub grave: bool,
    pub count: usize,
    pub depth: usize,
}

// Each function here that reads bytes answers the reading behind them, or None where the brackets have no room.

// The same reading in another state, without a name.
fn at_state(r: Reading, state: usize) -> Option<Reading>
    ensures { result ≡ Some (record { state = state; text = r.text; marks = r.marks; grave = false; count = 0; depth = r.depth }) }
{
    Some(Reading {
        state,
        grave: false,
        count: 0,
        ..r
    })
}

// In a name that has only the byte `b` so far.
fn start_name(r: Reading, state: usize, grave: bool, b: u8, name: &mut [u8]) -> Option<Reading>
    requires { (1025 ≤ length name.old) × (r.count ≤ 1025) }
    ensures { (w : List ℕ) → r.depth ≤ 4 * length w → FedBy result r 1 (naming state grave (state_of r name.old w) b) w name.new w }
{
    name[0] = b;
    Some(Reading {
        state,
        grave,
        count: 1,
        ..r
    })
}

// The name with the byte `b`, unless it has `most` bytes.
fn add_byte(r: Reading, most: usize, state: usize, b: u8, name: &mut [u8]) -> Option<Reading>
    requires { (1025 ≤ length name.old) × (r.count ≤ 1025) × (most ≤ 1025) }
    ensures { (w : List ℕ) → r.depth ≤ 4 * length w → FedBy result r 1 (longer most state (state_of r name.old w) b) w name.new w }
{
    if most <= r.count {
        return at_state(r, BAD);
    }
    let n = r.count;
    name[n] = b;
    Some(Reading {
        state,
        count: n + 1,
        ..r
    })
}

// With so many closing brackets due.
fn with_depth(r: Reading, depth: usize) -> Option<Reading>
    ensures { result ≡ Some (record { state = 0; text = r.text; marks = r.marks; grave = false; count = 0; depth = depth }) }
{
    Some(Reading {
        state: START,
        grave: false,
        count: 0,
        depth,
        ..r
    })
}

// A byte that is a token.
fn read_single(r: Reading, b: u8, stack: &mut [u8]) -> Option<Reading>
    requires { r.depth ≤ 4 * length stack.old }
    ensures { (n : List ℕ) → 1025 ≤ length n → r.count ≤ 1025 → FedBy result r 1 (single (state_of r n stack.old) b) stack.old n stack.new }
{
    if r.text {
        return at_state(r, START);
    }
    let p = step(stack, r.depth, b);
    match p {
        Stepped::On(d) => with_depth(r, d),
        Stepped::Done => at_state(r, BAD),
        Stepped::Torn => at_state(r, BAD),
        Stepped::Short => None,
    }
}

// The first byte of a token, none of those that `read_fresh` takes.
fn read_sign(r: Reading, b: u8, stack: &mut [u8]) -> Option<Reading>
    requires { r.depth ≤ 4 * length stack.old }
    ensures { (n : List ℕ) → 1025 ≤ length n → r.count ≤ 1025 → FedBy result r 1 (sign_of (state_of r n stack.old) b) stack.old n stack.new }
{
    if r.marks {
        return read_single(r, b, stack);
    }
    if b == 47 {
        return at_state(r, SLASH);
    }
    if b == 92 {
        return at_state(r, SOLID);
    }
    read_single(r, b, stack)
}

// The first byte of a token.
fn read_fresh(r: Reading, b: u8, name: &mut [u8], stack: &mut [u8]) -> Option<Reading>
    requires { Sound r name.old stack.old }
    ensures { FedBy result r 1 (fresh (state_of r name.old stack.old) b) stack.old name.new stack.new }
{
    if is_white(b) {
        return at_state(r, START);
    }
    if is_start(b) {
        return start_name(r, WORD, false, b, name);
    }
    if is_digit(b) | (b == 36) {
        return at_state(r, RUN);
    }
    if b == 10 {
        if r.marks {
            return at_state(r, BAD);
        }
        return at_state(r, START);
    }
    if b == 34 {
        return at_state(r, OPEN);
    }
    if b == 39 {
        return at_state(r, TICK);
    }
    if b == 96 {
        return at_state(r, ACCENT);
    }
    read_sign(r, b, stack)
}

// Whether no name, or a directive's, stands behind a grave accent.
fn is_spoilt(r: Reading, name: &[u8]) -> bool
    requires { r.count ≤ length name.now }
    ensures { (w : List ℕ) → result ≡ spoilt (state_of r name.now w) }
{
    if !r.grave {
        return false;
    }
    if r.count == 0 {
        return true;
    }
    2 < directive_of(part_of(name, 0, r.count))
}

// The byte `b` begins a token, and a name is whole.
fn read_closed(r: Reading, b: u8, name: &mut [u8], stack: &mut [u8]) -> Option<Reading>
    requires { Sound r name.old stack.old }
    ensures { FedBy result r 1 (closed (state_of r name.old stack.old) b) stack.old name.new stack.new }
{
    if is_spoilt(r, name) {
        return at_state(r, BAD);
    }
    read_fresh(r, b, name, stack)
}

// In a name.
fn read_word(r: Reading, b: u8, name: &mut [u8], stack: &mut [u8]) -> Option<Reading>
    requires { Sound r name.old stack.old }
    ensures { FedBy result r 1 (in_word (state_of r name.old stack.old) b) stack.old name.new stack.new }
{
    if is_run(36, b) {
        return add_byte(r, 1024, WORD, b, name);
    }
    read_closed(r, b, name, stack)
}

// Past a `\`, or in an escaped name.
fn read_solid(r: Reading, b: u8, name: &mut [u8], stack: &mut [u8]) -> Option<Reading>
    requires { Sound r name.old stack.old }
    ensures { FedBy result r 1 (in_solid (state_of r name.old stack.old) b) stack.old name.new stack.new }
{
    if is_space(b) {
        return read_closed(r, b, name, stack);
    }
    if b == 92 {
        return add_byte(r, 1025, DOUBT, b, name);
    }
    add_byte(r, 1024, SOLID, b, name)
}

// The reading with `count` bytes of its name, behind a `\` and a newline.
fn at_line(r: Reading, count: usize) -> Reading
    ensures { result ≡ record { state = 13; text = r.text; marks = r.marks; grave = r.grave; count = count; depth = r.depth } }
{
    Reading {
        state: LINE,
        count,
        ..r
    }
}

// In an escaped name, past a `\`.
fn read_doubt(r: Reading, b: u8, name: &mut [u8], stack: &mut [u8]) -> Option<Reading>
    requires { Sound r name.old stack.old }
    ensures { FedBy result r 1 (in_doubt (state_of r name.old stack.old) b) stack.old name.new stack.new }
{
    if 1024 < r.count {
        return at_state(r, BAD);
    }
    if b == 10 {
        return Some(at_line(r, r.count));
    }
    read_solid(r, b, name, stack)
}

// Past an escaped name, a `\` and white space that a newline begins.
fn read_line(r: Reading, b: u8, name: &mut [u8], stack: &mut [u8]) -> Option<Reading>
    requires { Sound r name.old stack.old }
    ensures { FedBy result r 1 (in_line (state_of r name.old stack.old) b) stack.old name.new stack.new }
{
    if is_space(b) {
        return Some(r);
    }
    if r.count == 0 {
        return read_closed(at_line(r, 0), b, name, stack);
    }
    read_closed(at_line(r, r.count - 1), b, name, stack)
}

// Past a quote mark.
fn turned(r: Reading) -> Option<Reading>
    ensures { result ≡ Some (record { state = 0; text = r.text; marks = not r.marks; grave = false; count = 0; depth = r.depth }) }
{
    Some(Reading {
        state: START,
        marks: !r.marks,
        grave: false,
        count: 0,
        ..r
    })
}

// Past a grave accent.
fn read_accent(r: Reading, b: u8, name: &mut [u8]) -> Option<Reading>
    requires { (1025 ≤ length name.old) × (r.count ≤ 1025) }
    ensures { (w : List ℕ) → r.depth ≤ 4 * length w → FedBy result r 1 (in_accent (state_of r name.old w) b) w name.new w }
{
    if is_start(b) {
        return start_name(r, WORD, true, b, name);
    }
    if b == 34 {
        return turned(r);
    }
    if b == 96 {
        return at_state(r, START);
    }
    if b == 92 {
        return at_state(r, SLANTED);
    }
    at_state(r, BAD)
}

// In an escaped name behind a grave accent, of `count` bytes so far.
fn slanted(r: Reading, count: usize) -> Reading
    ensures { result ≡ record { state = 11; text = r.text; marks = r.marks; grave = true; count = count; depth = r.depth } }
{
    Reading {
        state: SOLID,
        grave: true,
        count,
        ..r
    }
}

// Past a grave accent and a `\`.
fn read_slanted(r: Reading, b: u8, name: &mut [u8], stack: &mut [u8]) -> Option<Reading>
    requires { Sound r name.old stack.old }
    ensures { FedBy result r 1 (in_slanted (state_of r name.old stack.old) b) stack.old name.new stack.new }
{
    if b == 96 {
        return at_state(r, TWICE);
    }
    if r.marks {
        return at_state(r, BAD);
    }
    read_solid(slanted(r, 0), b, name, stack)
}

// Past a grave accent, a `\` and a grave accent.
fn read_twice(r: Reading, b: u8, name: &mut [u8], stack: &mut [u8]) -> Option<Reading>
    requires { Sound r name.old stack.old }
    ensures { FedBy result r 1 (in_twice (state_of r name.old stack.old) b) stack.old name.new stack.new }
{
    if b == 34 {
        return at_state(r, START);
    }
    if r.marks {
        return at_state(r, BAD);
    }
    name[0] = 96;
    read_solid(slanted(r, 1), b, name, stack)
}

// Past an apostrophe.
fn read_tick(r: Reading, b: u8, name: &mut [u8], stack: &mut [u8]) -> Option<Reading>
    requires { Sound r name.old stack.old }
    ensures { FedBy result r 1 (in_tick (state_of r name.old stack.old) b) stack.old name.new stack.new }
{
    if is_base(b) {
        return at_state(r, BASED);
    }
    if is_sign(b) {
        return start_name(r, SIGN, false, b, name);
    }
    read_fresh(r, b, name, stack)
}

// In the run of a number, of a `$` or of a based number.
fn read_run(
    r: Reading,
    state: usize,
    more: u8,
    b: u8,
    name: &mut [u8],
    stack: &mut [u8],
) -> Option<Reading>
    requires { Sound r name.old stack.old }
    ensures { FedBy result r 1 (in_run state more (state_of r name.old stack.old) b) stack.old name.new stack.new }
{
    if is_run(more, b) {
        return at_state(r, state);
    }
    read_fresh(r, b, name, stack)
}

// In a string.
fn read_string(r: Reading, b: u8) -> Option<Reading>
    ensures { (n w : List ℕ) → Sound r n w → FedBy result r 1 (in_string (state_of r n w) b) w n w }
{
    if b == 10 {
        return at_state(r, BAD);
    }
    if r.state == ESCAPE {
        return at_state(r, WITHIN);
    }
    if b == 92 {
        return at_state(r, ESCAPE);
    }
    if b == 34 {
        if r.state == OPEN {
            return at_state(r, PAIR);
        }
        return at_state(r, START);
    }
    at_state(r, WITHIN)
}

fn is_string(r: Reading) -> bool
    ensures { (n w : List ℕ) → result ≡ is_string (state_of r n w) }
{
    (r.state == OPEN) | ((r.state == WITHIN) | (r.state == ESCAPE))
}

// Behind a name's `\` or a grave accent.
fn read_marked(r: Reading, b: u8, name: &mut [u8], stack: &mut [u8]) -> Option<Reading>
    requires { Sound r name.old stack.old }
    ensures { FedBy result r 1 (in_marked (state_of r name.old stack.old) b) stack.old name.new stack.new }
{
    if r.state == SOLID {
        return read_solid(r, b, name, stack);
    }
    if r.state == DOUBT {
        return read_doubt(r, b, name, stack);
    }
    if r.state == LINE {
        return read_line(r, b, name, stack);
    }
    if r.state == ACCENT {
        return read_accent(r, b, name);
    }
    if r.state == SLANTED {
        return read_slanted(r, b, name, stack);
    }
    if r.state == TWICE {
        return read_twice(r, b, name, stack);
    }
    at_state(r, BAD)
}

// Past a token that the byte `b` may end otherwise: an apostrophe, its sign, a string of no bytes, a `/`.
fn read_short(r: Reading, b: u8, name: &mut [u8], stack: &mut [u8]) -> Option<Reading>
    requires { Sound r name.old stack.old }
    ensures { FedBy result r 1 (in_short (state_of r name.old stack.old) b) stack.old name.new stack.new }
{
    if r.state == TICK {
        return read_tick(r, b, name, stack);
    }
    if r.state == SIGN {
        if is_base(b) {
            return at_state(r, BASED);
        }
        return read_word(r, b, name, stack);
    }
    if r.state == PAIR {
        if b == 34 {
            return at_state(r, BAD);
        }
        return read_fresh(r, b, name, stack);
    }
    if r.state == SLASH {
        if (b == 47) | (b == 42) {
            return at_state(r, BAD);
        }
        return read_fresh(r, b, name, stack);
    }
    read_marked(r, b, name, stack)
}

// Outside strings.
fn read_outside(r: Reading, b: u8, name: &mut [u8], stack: &mut [u8]) -> Option<Reading>
    requires { Sound r name.old stack.old }
    ensures { FedBy result r 1 (outside (state_of r name.old stack.old) b) stack.old name.new stack.new }
{
    if r.state == START {
        return read_fresh(r, b, name, stack);
    }
    if r.state == WORD {
        return read_word(r, b, name, stack);
    }
    if r.state == RUN {
        return read_run(r, RUN, 36, b, name, stack);
    }
    if r.state == BASED {
        return read_run(r, BASED, 63, b, name, stack);
    }
    read_short(r, b, name, stack)
}

// Reads the byte `b`.
pub fn read_byte(r: Reading, b: u8, name: &mut [u8], stack: &mut [u8]) -> Option<Reading>
    requires { Sound r name.old stack.old }
    ensures { FedBy result r 1 (next (state_of r name.old stack.old) b) stack.old name.new stack.new }
{
    if !is_legal(b) {
        return at_state(r, BAD);
    }
    if is_string(r) {
        return read_string(r, b);
    }
    if !r.text & (b == 96) {
        return at_state(r, BAD);
    }
    read_outside(r, b, name, stack)
}

// The reading before the first byte.
pub fn begin(text: bool) -> Reading
    ensures { result ≡ record { state = 0; text = text; marks = false; grave = false; count = 0; depth = 0 } }
{
    Reading {
        state: START,
        text,
        marks: false,
        grave: false,
        count: 0,
        depth: 0,
    }
}

// What the end of the text leaves bad in a state.
fn leaves_bad(r: Reading, name: &[u8]) -> bool
    requires { r.count ≤ length name.now }
    ensures { (w : List ℕ) → result ≡ leaves (state_of r name.now w) }
{
    if (r.state == WORD) | ((r.state == SIGN) | (r.state == SOLID)) {
        return is_spoilt(r, name);
    }
    if (r.state == DOUBT) | (r.state == LINE) {
        return (1024 < r.count) | is_spoilt(r, name);
    }
    is_string(r) | ((r.state == ACCENT) | ((r.state == SLANTED) | (BAD <= r.state)))
}

// Whether the whole text is bad, as its end shows.
pub fn end_verdict(r: Reading, name: &[u8]) -> Option<bool>
    requires { r.count ≤ length name.now }
    ensures { (w : List ℕ) → result ≡ verdict_of (ended (state_of r name.now w)) }
{
    Some(r.marks | ((0 < r.depth) | leaves_bad(r, name)))
}
