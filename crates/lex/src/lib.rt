// The token at a position of a text (document 01, "Tokens"), with the refusal 2 to 6 that bars it.
#![tactic(auto)]

ghost use Rattle.std.specs.Prelude.{◌≡◌, cond, ◌+◌, ◌-◌, ◌<◌, eqb, ltb, length};
ghost use Rattle.lex.specs.Classes.{is_white, is_space, is_start, is_digit, is_run, is_sign, is_base, is_legal, is_span};
ghost use Rattle.lex.specs.Scans.{scan, run_end, span_end, string_end, block_end};
ghost use Rattle.lex.specs.Tokens.{mark_bar, string_token, slash_token, backslash_token, digits_token, based_token, escaped_grave, grave_token, sign_token, token_at, escaped_or};
ghost use Rattle.lex.specs.Tokens.{in_file, in_definition, in_text, between, is_gap, is_byte, marks_after};
ghost use Rattle.lex.specs.Faults.{fault_of, worse_of};
ghost use Rattle.lex.specs.Tokens.{plain as plainToken, named as namedToken, scanned as scannedToken};

use text::peek;

// How a text is read.
#[derive(Clone, Copy)]
pub struct Mode {
    // a macro's text, in which a joiner and either quote mark are tokens
    pub text: bool,
    // a definition as it stands in its file: `\` before a newline continues it
    pub define: bool,
    // between quote marks
    pub marks: bool,
}

// Kinds of tokens.
pub const WHITE: usize = 0;

pub const NEWLINE: usize = 1;

pub const LINE_COMMENT: usize = 2;

pub const BLOCK_COMMENT: usize = 3;

pub const STRING: usize = 4;

pub const NAME: usize = 5;

pub const DOLLAR: usize = 6;

pub const ESCAPED: usize = 7;

pub const NUMBER: usize = 8;

pub const BASED: usize = 9;

pub const QUOTE: usize = 10;

pub const ESCAPED_QUOTE: usize = 11;

pub const JOINER: usize = 12;
// a grave accent with a name or escaped name
pub const GRAVE: usize = 13;

pub const BYTE: usize = 14;
// in a definition: `\` and a newline
pub const CONTINUATION: usize = 15;
// no token: the text ends
pub const END: usize = 16;

// A token from `at` to before `end`; its name, without grave accent and `\`, starts at `from`; `bar` is the refusal
// 2 to 6 that bars it, or 0.
#[derive(Clone, Copy)]
pub struct Token {
    pub kind: usize,
    pub at: usize,
    pub from: usize,
    pub end: usize,
    pub bar: usize,
}

// A refusal and the place of the token that it bars; number 0: none.
#[derive(Clone, Copy)]
pub struct Fault {
    pub number: usize,
    pub place: usize,
}

// Where a scan ended, and the refusal found on the way, or 0.
#[derive(Clone, Copy)]
pub struct Scan {
    pub end: usize,
    pub bar: usize,
}

pub fn is_white(b: u8) -> bool
    ensures { result ≡ is_white b }
{
    (b == 9) | ((b == 12) | (b == 32))
}

pub fn is_space(b: u8) -> bool
    ensures { result ≡ is_space b }
{
    (b == 10) | ((b == 9) | ((b == 12) | (b == 32)))
}

pub fn is_digit(b: u8) -> bool
    ensures { result ≡ is_digit b }
{
    (48 <= b) & (b <= 57)
}

pub fn is_start(b: u8) -> bool
    ensures { result ≡ is_start b }
{
    (((65 <= b) & (b <= 90)) | ((97 <= b) & (b <= 122))) | (b == 95)
}

pub fn is_run(more: u8, b: u8) -> bool
    ensures { result ≡ is_run more b }
{
    is_start(b) | (is_digit(b) | (b == more))
}

pub fn is_sign(b: u8) -> bool
    ensures { result ≡ is_sign b }
{
    (b == 115) | (b == 83)
}

pub fn is_base(b: u8) -> bool
    ensures { result ≡ is_base b }
{
    (b == 98)
        | ((b == 66)
            | ((b == 111) | ((b == 79) | ((b == 100) | ((b == 68) | ((b == 104) | (b == 72)))))))
}

pub fn is_legal(b: u8) -> bool
    ensures { result ≡ is_legal b }
{
    is_space(b) | ((32 <= b) & (b <= 126))
}

fn is_span(solid: bool, b: u8) -> bool
    ensures { result ≡ is_span solid b }
{
    !(b == 10) & !(solid & is_white(b))
}

// The end of a scan, barred by 2 where a byte was illegal, else by `bar`.
pub fn scan_at(end: usize, ok: bool, bar: usize) -> Scan
    ensures { result ≡ scan end ok bar }
{
    if ok {
        Scan { end, bar }
    } else {
        Scan { end, bar: 2 }
    }
}

// The end of a run of letters, digits, `_` and the byte `more`.
fn run(s: &[u8], at: usize, more: u8) -> usize
    ensures { result ≡ run_end more s.now at }
{
    for i in at..s.len() {
        if !is_run(more, s[i]) {
            return i;
        }
    }
    at.max(s.len())
}

// The rest of a line, or with `solid` of an escaped name; with `stops` up to a `\` just before a newline.
fn scan_span(s: &[u8], at: usize, solid: bool, stops: bool) -> Scan
    ensures { result ≡ span_end solid stops s.now at }
{
    let mut ok = true;
    for i in at..s.len() {
        let b = s[i];
        if !is_span(solid, b) {
            return scan_at(i, ok, 0);
        }
        if stops & ((b == 92) & (peek(s, i + 1) == 10)) {
            return scan_at(i, ok, 0);
        }
        ok = ok & is_legal(b);
    }
    scan_at(at.max(s.len()), ok, 0)
}

// A string's text from `at` to past its closing `"`.
fn scan_string(s: &[u8], at: usize) -> Scan
    ensures { result ≡ string_end s.now at }
{
    let mut escaped = false;
    let mut ok = true;
    for i in at..s.len() {
        let b = s[i];
        if escaped {
            ok = ok & is_legal(b);
            escaped = false;
            continue;
        }
        if b == 34 {
            return scan_at(i + 1, ok, 0);
        }
        if b == 10 {
            return scan_at(i, ok, 3);
        }
        ok = ok & is_legal(b);
        escaped = b == 92;
    }
    scan_at(at.max(s.len()), ok, 3)
}

// A block comment's text from `at` to past its `*/`.
fn scan_block(s: &[u8], at: usize) -> Scan
    ensures { result ≡ block_end s.now at }
{
    let mut star = false;
    let mut ok = true;
    for i in at..s.len() {
        let b = s[i];
        if star & (b == 47) {
            return scan_at(i + 1, ok, 0);
        }
        ok = ok & is_legal(b);
        star = b == 42;
    }
    scan_at(at.max(s.len()), ok, 3)
}

fn plain(kind: usize, at: usize, end: usize, bar: usize) -> Token
    ensures { result ≡ plainToken kind at end bar }
{
    Token {
        kind,
        at,
        from: at,
        end,
        bar,
    }
}

// 6 where the name from `from` to `end` is over 1,024 bytes long.
fn name_bar(from: usize, end: usize, bar: usize) -> usize
    ensures { result ≡ cond (eqb bar 0) (cond (ltb 1024 (end - from)) 6 0) bar }
{
    if bar != 0 {
        return bar;
    }
    if end <= from {
        return 0;
    }
    if 1024 < end - from { 6 } else { 0 }
}

fn named(kind: usize, at: usize, from: usize, end: usize, bar: usize) -> Token
    ensures { result ≡ namedToken kind at from end bar }
{
    Token {
        kind,
        at,
        from,
        end,
        bar: name_bar(from, end, bar),
    }
}

fn scanned(kind: usize, at: usize, r: Scan) -> Token
    ensures { result ≡ scannedToken kind at r }
{
    plain(kind, at, r.end, r.bar)
}

// An escaped name that starts at `from`, or the one byte at `at`, barred by `bar`, where it has no byte.
fn escaped_or(kind: usize, at: usize, from: usize, bar: usize, r: Scan) -> Token
    requires { at < from }
    ensures { result ≡ escaped_or kind at from bar r }
{
    if r.end == from {
        return plain(BYTE, at, at + 1, bar);
    }
    named(kind, at, from, r.end, r.bar)
}

fn string_token(s: &[u8], at: usize) -> Token
    requires { at < length s.now }
    ensures { result ≡ string_token s.now at }
{
    if (peek(s, at + 1) == 34) & (peek(s, at + 2) == 34) {
        return plain(STRING, at, at + 3, 5);
    }
    scanned(STRING, at, scan_string(s, at + 1))
}

fn slash_token(s: &[u8], at: usize, m: Mode) -> Token
    requires { at < length s.now }
    ensures { result ≡ slash_token m s.now at }
{
    if m.marks {
        return plain(BYTE, at, at + 1, 0);
    }
    let b = peek(s, at + 1);
    if b == 47 {
        return scanned(LINE_COMMENT, at, scan_span(s, at + 2, false, m.define));
    }
    if b == 42 {
        return scanned(BLOCK_COMMENT, at, scan_block(s, at + 2));
    }
    plain(BYTE, at, at + 1, 0)
}

fn backslash_token(s: &[u8], at: usize, m: Mode) -> Token
    requires { at < length s.now }
    ensures { result ≡ backslash_token m s.now at }
{
    if m.define & (peek(s, at + 1) == 10) {
        return plain(CONTINUATION, at, at + 2, 0);
    }
    if m.marks {
        return plain(BYTE, at, at + 1, 0);
    }
    escaped_or(ESCAPED, at, at + 1, 0, scan_span(s, at + 1, true, true))
}

// A based number whose apostrophe is at `at` and whose base letter is at `base`, or the apostrophe alone.
fn digits_token(s: &[u8], at: usize, base: usize) -> Token
    requires { (at < length s.now) × (base < length s.now + 2) }
    ensures { result ≡ digits_token s.now at base }
{
    if is_base(peek(s, base)) {
        return plain(BASED, at, run(s, base + 1, 63), 0);
    }
    plain(BYTE, at, at + 1, 0)
}

fn based_token(s: &[u8], at: usize) -> Token
    requires { at < length s.now }
    ensures { result ≡ based_token s.now at }
{
    if is_sign(peek(s, at + 1)) {
        return digits_token(s, at, at + 2);
    }
    digits_token(s, at, at + 1)
}

fn mark_bar(m: Mode) -> usize
    ensures { result ≡ mark_bar m }
{
    if m.text { 0 } else { 4 }
}

// A grave accent and a `\`.
fn escaped_grave(s: &[u8], at: usize, m: Mode) -> Token
    requires { at < length s.now }
    ensures { result ≡ escaped_grave m s.now at }
{
    if (peek(s, at + 2) == 96) & (peek(s, at + 3) == 34) {
        return plain(ESCAPED_QUOTE, at, at + 4, mark_bar(m));
    }
    if m.marks {
        return plain(BYTE, at, at + 1, 4);
    }
    escaped_or(GRAVE, at, at + 2, 4, scan_span(s, at + 2, true, true))
}

fn grave_token(s: &[u8], at: usize, m: Mode) -> Token
    requires { at < length s.now }
    ensures { result ≡ grave_token m s.now at }
{
    let b = peek(s, at + 1);
    if is_start(b) {
        return named(GRAVE, at, at + 1, run(s, at + 2, 36), 0);
    }
    if b == 34 {
        return plain(QUOTE, at, at + 2, mark_bar(m));
    }
    if b == 96 {
        return plain(JOINER, at, at + 2, mark_bar(m));
    }
    if b == 92 {
        return escaped_grave(s, at, m);
    }
    plain(BYTE, at, at + 1, 4)
}

fn byte_bar(b: u8) -> usize
    ensures { result ≡ cond (is_legal b) 0 2 }
{
    if is_legal(b) { 0 } else { 2 }
}

// The token at `at` whose first byte, `b`, begins no name and no number and is no white space.
fn sign_token(s: &[u8], at: usize, m: Mode, b: u8) -> Token
    requires { at < length s.now }
    ensures { result ≡ sign_token m s.now at b }
{
    if b == 34 {
        return string_token(s, at);
    }
    if b == 47 {
        return slash_token(s, at, m);
    }
    if b == 92 {
        return backslash_token(s, at, m);
    }
    if b == 39 {
        return based_token(s, at);
    }
    if b == 96 {
        return grave_token(s, at, m);
    }
    plain(BYTE, at, at + 1, byte_bar(b))
}

// The token at `at`, or END.
pub fn token_at(s: &[u8], at: usize, m: Mode) -> Token
    ensures { result ≡ token_at m s.now at }
{
    if s.len() <= at {
        return plain(END, at, at, 0);
    }
    let b = s[at];
    if is_white(b) {
        return plain(WHITE, at, at + 1, 0);
    }
    if is_start(b) {
        return named(NAME, at, at, run(s, at + 1, 36), 0);
    }
    if is_digit(b) {
        return plain(NUMBER, at, run(s, at + 1, 36), 0);
    }
    if b == 10 {
        return plain(NEWLINE, at, at + 1, 0);
    }
    if b == 36 {
        return plain(DOLLAR, at, run(s, at + 1, 36), 0);
    }
    sign_token(s, at, m, b)
}

pub fn in_file() -> Mode
    ensures { result ≡ in_file }
{
    Mode {
        text: false,
        define: false,
        marks: false,
    }
}

// A definition as it stands in its file, from a token on that stands between quote marks or not.
pub fn in_definition(marks: bool) -> Mode
    ensures { result ≡ between in_definition marks }
{
    Mode {
        text: true,
        define: true,
        marks,
    }
}

// A stored text, from a token on that stands between quote marks or not.
pub fn in_text(marks: bool) -> Mode
    ensures { result ≡ between in_text marks }
{
    Mode {
        text: true,
        define: false,
        marks,
    }
}

// Whether a token is spacing between words.
pub fn is_gap(t: Token) -> bool
    ensures { result ≡ is_gap t }
{
    (t.kind == WHITE)
        | ((t.kind == LINE_COMMENT) | ((t.kind == BLOCK_COMMENT) | (t.kind == CONTINUATION)))
}

// Whether a token is the one byte `b`.
pub fn is_byte(s: &[u8], t: Token, b: u8) -> bool
    ensures { result ≡ is_byte s.now b t }
{
    (t.kind == BYTE) & (peek(s, t.at) == b)
}

// What bars a token.
pub fn fault_of(t: Token) -> Fault
    ensures { result ≡ fault_of t }
{
    Fault {
        number: t.bar,
        place: t.at,
    }
}

// The one of two refusals that is given, where `f` stands left of `g`.
pub fn worse(f: Fault, g: Fault) -> Fault
    ensures { result ≡ worse_of f g }
{
    if g.number == 0 {
        return f;
    }
    if f.number == 0 {
        return g;
    }
    if g.number < f.number { g } else { f }
}

// Whether what stands past the token `t` is between quote marks.
pub fn marks_after(marks: bool, t: Token) -> bool
    ensures { result ≡ marks_after marks t }
{
    if t.kind == QUOTE { !marks } else { marks }
}
