// The condition of `ifdef`, `ifndef` and `elsif` (document 02, P1): a name, or names with operators in parentheses. A
// condition or a part of it is read as its value and where it ends, or refused.
#![tactic(auto)]

ghost use Rattle.std.specs.Prelude.{◌≡◌, Bool, List, [], ◌∷◌, ◌<◌, ◌≤◌, length, drop};
ghost use Rattle.text.specs.Bytes.{begins};
ghost use Rattle.directive.specs.Words.{word_start};
ghost use Rattle.definition.specs.Definitions.{Macro};
ghost use Rattle.store.specs.Buffers.{Holds, Stored};
ghost use Rattle.conditions.specs.Grammar.{is_defined, mapped, unfit, spaced, name_at, nots_by, ands_by, ors_by, arrows_by, parentheses_at, condition_at};
ghost use Rattle.conditions.specs.Reading.{differs, Reads};

use directive::word_start;
use lex::{ESCAPED, Fault, NAME, Token, fault_of, in_file, token_at};
use store::find;
use text::{part_of, peek};

// Whether a macro of the name `w` is defined.
fn is_defined(bytes: &[u8], records: &[[u32; 4]], macros: usize, w: &[u8]) -> bool
    ensures { (ms : List Macro) → Holds ms bytes.now records.now macros → result ≡ is_defined ms w.now }
{
    find(bytes, records, macros, w).is_ok()
}

// Where the next token from `at` on stands, on this line.
fn next_token(s: &[u8], at: usize) -> usize
    ensures { result ≡ word_start s.now at }
{
    let b = peek(s, at);
    if (32 < b) & (b != 47) {
        return at;
    }
    word_start(s, at)
}

// The token `t` does not fit: 2 to 6 where one of them bars it, else 7 at `place`.
fn refuse(t: Token, place: usize) -> Result<(bool, usize), Fault>
    ensures { result ≡ unfit t place }
{
    if t.bar != 0 {
        return Err(fault_of(t));
    }
    Err(Fault { number: 7, place })
}

// Whether the bytes `a` and `b` stand at `at`.
fn pair_at(s: &[u8], at: usize, a: u8, b: u8) -> bool
    requires { (at ≤ length s.now) × (0 < a) × (0 < b) }
    ensures { result ≡ begins (drop at s.now) (a ∷ b ∷ []) }
{
    if peek(s, at) != a {
        return false;
    }
    peek(s, at + 1) == b
}

// Whether the bytes `a`, `b` and `c` stand at `at`.
fn triple_at(s: &[u8], at: usize, a: u8, b: u8, c: u8) -> bool
    requires { (at ≤ length s.now) × (0 < a) × (0 < b) × (0 < c) }
    ensures { result ≡ begins (drop at s.now) (a ∷ b ∷ c ∷ []) }
{
    if peek(s, at) != a {
        return false;
    }
    pair_at(s, at + 1, b, c)
}

// The name at `at`; `place`: where 7 is, if none stands there.
fn name_at(
    s: &[u8],
    at: usize,
    place: usize,
    bytes: &[u8],
    records: &[[u32; 4]],
    macros: usize,
) -> Result<(bool, usize), Fault>
    ensures { Reads result (λ d. name_at s.now d place at) bytes.now records.now macros }
{
    let t = token_at(s, at, in_file());
    if (t.bar == 0) & ((t.kind == NAME) | (t.kind == ESCAPED)) {
        let is = is_defined(bytes, records, macros, part_of(s, t.from, t.end));
        return Ok((is, t.end));
    }
    refuse(t, place)
}

// The condition in parentheses from the `(` at `at` on, where `left` may open, itself among them.
#[cycle(ands_arrows_nots_ors_parentheses)]
fn parentheses(
    s: &[u8],
    at: usize,
    left: usize,
    bytes: &[u8],
    records: &[[u32; 4]],
    macros: usize,
) -> Result<(bool, usize), Fault>
    requires { (at < length s.now) × Stored bytes.now records.now macros }
    ensures { Reads result (λ d. parentheses_at s.now d left at) bytes.now records.now macros }
{
    if left == 0 {
        return Err(Fault {
            number: 7,
            place: at,
        });
    }
    let (v, p) = arrows(s, next_token(s, at + 1), left - 1, bytes, records, macros)?;
    if peek(s, p) == 41 {
        return Ok((v, p + 1));
    }
    refuse(token_at(s, p, in_file()), p)
}

// The operand `x`, negated if `odd`, up to the next token.
fn behind(s: &[u8], x: Result<(bool, usize), Fault>, odd: bool) -> Result<(bool, usize), Fault>
    ensures { result ≡ mapped (differs odd) (spaced s.now x) }
{
    let (v, p) = x?;
    Ok((v != odd, next_token(s, p)))
}

// A name or a condition in parentheses, behind any number of `!`, up to the next token.
#[cycle(ands_arrows_nots_ors_parentheses)]
fn nots(
    s: &[u8],
    at: usize,
    left: usize,
    bytes: &[u8],
    records: &[[u32; 4]],
    macros: usize,
) -> Result<(bool, usize), Fault>
    requires { (at ≤ length s.now) × Stored bytes.now records.now macros }
    ensures { Reads result (λ d. nots_by s.now d (parentheses_at s.now d left) at) bytes.now records.now macros }
{
    let mut i = at;
    let mut odd = false;
    while peek(s, i) == 33 {
        odd = !odd;
        i = next_token(s, i + 1);
    }
    if peek(s, i) == 40 {
        return behind(s, parentheses(s, i, left, bytes, records, macros), odd);
    }
    behind(s, name_at(s, i, i, bytes, records, macros), odd)
}

// One or more of these with `&&` between them.
#[cycle(ands_arrows_nots_ors_parentheses)]
fn ands(
    s: &[u8],
    at: usize,
    left: usize,
    bytes: &[u8],
    records: &[[u32; 4]],
    macros: usize,
) -> Result<(bool, usize), Fault>
    requires { (at ≤ length s.now) × Stored bytes.now records.now macros }
    ensures { Reads result (λ d. ands_by s.now d (parentheses_at s.now d left) at) bytes.now records.now macros }
{
    let mut i = at;
    let mut all = true;
    loop {
        let (v, p) = nots(s, i, left, bytes, records, macros)?;
        all = all & v;
        if !pair_at(s, p, 38, 38) {
            return Ok((all, p));
        }
        i = next_token(s, p + 2);
    }
}

// One or more of these with `||` between them.
#[cycle(ands_arrows_nots_ors_parentheses)]
fn ors(
    s: &[u8],
    at: usize,
    left: usize,
    bytes: &[u8],
    records: &[[u32; 4]],
    macros: usize,
) -> Result<(bool, usize), Fault>
    requires { (at ≤ length s.now) × Stored bytes.now records.now macros }
    ensures { Reads result (λ d. ors_by s.now d (parentheses_at s.now d left) at) bytes.now records.now macros }
{
    let mut i = at;
    let mut any = false;
    loop {
        let (v, p) = ands(s, i, left, bytes, records, macros)?;
        any = any | v;
        if !pair_at(s, p, 124, 124) {
            return Ok((any, p));
        }
        i = next_token(s, p + 2);
    }
}

// One or more of these with `->` or `<->` between them, which group from the right. `no` and `yes`: what the whole is if
// the rest is false, and if it is true.
#[cycle(ands_arrows_nots_ors_parentheses)]
fn arrows(
    s: &[u8],
    at: usize,
    left: usize,
    bytes: &[u8],
    records: &[[u32; 4]],
    macros: usize,
) -> Result<(bool, usize), Fault>
    requires { (at ≤ length s.now) × Stored bytes.now records.now macros }
    ensures { Reads result (λ d. arrows_by s.now d (parentheses_at s.now d left) at) bytes.now records.now macros }
{
    let mut i = at;
    let mut no = false;
    let mut yes = true;
    loop {
        let (v, p) = ors(s, i, left, bytes, records, macros)?;
        if pair_at(s, p, 45, 62) {
            no = (v & no) | (!v & yes);
            i = next_token(s, p + 2);
            continue;
        }
        if triple_at(s, p, 60, 45, 62) {
            let was = no;
            no = (v & no) | (!v & yes);
            yes = (v & yes) | (!v & was);
            i = next_token(s, p + 3);
            continue;
        }
        return Ok(((v & yes) | (!v & no), p));
    }
}

// The condition behind the conditional word `t`.
pub fn condition_at(
    s: &[u8],
    t: Token,
    bytes: &[u8],
    records: &[[u32; 4]],
    macros: usize,
) -> Result<(bool, usize), Fault>
    requires { Stored bytes.now records.now macros }
    ensures { Reads result (λ d. condition_at s.now d t) bytes.now records.now macros }
{
    let i = next_token(s, t.end);
    if peek(s, i) == 40 {
        return parentheses(s, i, 32, bytes, records, macros);
    }
    name_at(s, i, t.at, bytes, records, macros)
}
