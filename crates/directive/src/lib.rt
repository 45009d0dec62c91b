// The forms of the directives that stand on one line (document 01, "Directives").
#![tactic(auto)]

ghost use Rattle.std.specs.Prelude.{◌≡◌, ◌<◌, ◌+◌, length};
ghost use Rattle.directive.specs.Words.{is_between, word_start, word_at};
ghost use Rattle.directive.specs.Include.{raw_end, behind_at, name_at, include_at};
ghost use Rattle.directive.specs.Include.{line as includeLine};
ghost use Rattle.directive.specs.Forms.{undef_form, unit_after, magnitude, time_at, precision_form, slash_form, timescale_form, takes_entry, entry_kind, entry_in, entry_form, include_form, stands_alone, read_at, value_of, form_at, undef_at};
ghost use Rattle.directive.specs.Forms.{power as powerOf};

use lex::{
    BLOCK_COMMENT, END, ESCAPED, Fault, NAME, NEWLINE, NUMBER, STRING, Token, fault_of, in_file,
    is_byte, is_gap, is_legal, is_white, scan_at, token_at, worse,
};
use names::{
    BEGIN_KEYWORDS, CELLDEFINE, DEFAULT_NETTYPE, ELSE, END_CELLDEFINE, END_KEYWORDS, ENDIF,
    FILE_WORD, INCLUDE, LINE_WORD, NO_UNCONNECTED_DRIVE, RESETALL, TIMESCALE, UNCONNECTED_DRIVE,
    UNDEF, UNDEFINE_ALL, UNKNOWN, drive_of, nettype_of, unit_of, version_of,
};
use text::{begins_at, holds_in, part_of};

// The next word on a directive's line; none; or a token before it that 2 to 6 bar, with its place.
#[derive(Clone, Copy)]
pub enum Word {
    Found(Token),
    Missing,
    Barred(usize, usize),
}

// What a directive says.
#[derive(Clone, Copy)]
pub enum Value {
    Nothing,
    // time unit and precision as powers of ten, 1 fs is 0
    Times(usize, usize),
    NetType(usize),
    // inside a cell: 1, else 0
    Cell(usize),
    // none 0, pull0 1, pull1 2
    Drive(usize),
    // a keyword set: 0 for 1364-1995 to 3 for 1800-2005
    Version(usize),
    // back to the keyword set at the start
    StartingSet,
    // all state as at the start
    Reset,
}

// A directive of its form, as read: two numbers that it says, 0 where it says none, and its end; an ill_formed one; or a token
// of it that 2 to 6 bar, with its place.
#[derive(Clone, Copy)]
pub enum Read {
    Said(usize, usize, usize),
    Unformed,
    Barred(usize, usize),
}

// A directive of its form, with its end; an ill_formed one; or a token of it that 2 to 6 bar, with its place.
#[derive(Clone, Copy)]
pub enum Form {
    Formed(Value, usize),
    Unformed,
    Barred(usize, usize),
}

// The name behind `undef`: from, end, without `\`, its end being the directive's; none; or a token that 2 to 6 bar, with its
// place.
#[derive(Clone, Copy)]
pub enum MacroName {
    Named(usize, usize),
    Unnamed,
    Barred(usize, usize),
}

// A time as a power of ten of 1 fs, and its end.
#[derive(Clone, Copy)]
pub enum Time {
    Power(usize, usize),
    Unformed,
    Barred(usize, usize),
}

// The name of an included file: from, end.
#[derive(Clone, Copy)]
pub enum FileName {
    Unnamed,
    Quoted(usize, usize),
    Angled(usize, usize),
}

// An include's line read whole: what bars it, the name, the directive's end, whether other text stands behind it.
#[derive(Clone, Copy)]
pub struct IncludeLine {
    pub bars: Fault,
    pub file: FileName,
    pub end: usize,
    pub other: bool,
}

// Whether the token `t` may stand between words of one line.
fn is_between(s: &[u8], t: Token) -> bool
    ensures { result ≡ is_between s.now t }
{
    (t.bar == 0) & (is_gap(t) & !((t.kind == BLOCK_COMMENT) & holds_in(s, t.at, t.end, 10)))
}

// Where the next word from `at` on starts, or what stands there instead on this line.
pub fn word_start(s: &[u8], at: usize) -> usize
    ensures { result ≡ word_start s.now at }
{
    let mut i = at;
    while i < s.len() {
        let b = s[i];
        if is_white(b) {
            i += 1;
            continue;
        }
        if b != 47 {
            return i;
        }
        let t = token_at(s, i, in_file());
        if !is_between(s, t) {
            return i;
        }
        i = t.end;
    }
    i
}

// The next word from `at` on.
pub fn word_at(s: &[u8], at: usize) -> Word
    ensures { result ≡ word_at s.now at }
{
    let t = token_at(s, word_start(s, at), in_file());
    if t.bar != 0 {
        return Word::Barred(t.bar, t.at);
    }
    if (t.kind == NEWLINE) | (is_gap(t) | (t.kind == END)) {
        return Word::Missing;
    }
    Word::Found(t)
}

// The name behind an `undef`, without `\`: from, end.
fn undef_form(s: &[u8], at: usize) -> Read
    ensures { result ≡ undef_form s.now at }
{
    let w = word_at(s, at);
    match w {
        Word::Found(t) => {
            if (t.kind == NAME) | (t.kind == ESCAPED) {
                return Read::Said(t.from, t.end, t.end);
            }
            Read::Unformed
        }
        Word::Missing => Read::Unformed,
        Word::Barred(n, p) => Read::Barred(n, p),
    }
}

// A time of the unit `word`, as ten to the `n` of it.
fn power(word: &[u8], n: usize, end: usize) -> Time
    requires { n < 3 }
    ensures { result ≡ powerOf word.now n end }
{
    let u = unit_of(word);
    if u == UNKNOWN {
        return Time::Unformed;
    }
    Time::Power(n + u, end)
}

// The unit of the number `t`, whose first `digits` bytes are ten to the `n`.
fn unit_after(s: &[u8], t: Token, digits: usize, n: usize) -> Time
    requires { (t.at < length s.now) × (digits < 4) × (n < 3) }
    ensures { result ≡ unit_after s.now t digits n }
{
    let from = t.at + digits;
    if from != t.end {
        return power(part_of(s, from, t.end), n, t.end);
    }
    let w = word_at(s, t.end);
    match w {
        Word::Found(u) => {
            if u.kind == NAME {
                return power(part_of(s, u.at, u.end), n, u.end);
            }
            Time::Unformed
        }
        Word::Missing => Time::Unformed,
        Word::Barred(b, p) => Time::Barred(b, p),
    }
}

fn magnitude_of(s: &[u8], t: Token) -> Time
    requires { t.at < length s.now }
    ensures { result ≡ magnitude s.now t }
{
    if t.kind != NUMBER {
        return Time::Unformed;
    }
    if begins_at(s, t.at, b"100") {
        return unit_after(s, t, 3, 2);
    }
    if begins_at(s, t.at, b"10") {
        return unit_after(s, t, 2, 1);
    }
    if begins_at(s, t.at, b"1") {
        return unit_after(s, t, 1, 0);
    }
    Time::Unformed
}

fn time_at(s: &[u8], at: usize) -> Time
    ensures { result ≡ time_at s.now at }
{
    let w = word_at(s, at);
    match w {
        Word::Found(t) => magnitude_of(s, t),
        Word::Missing => Time::Unformed,
        Word::Barred(b, p) => Time::Barred(b, p),
    }
}

fn precision_form(s: &[u8], unit: usize, at: usize) -> Read
    ensures { result ≡ precision_form s.now unit at }
{
    let time = time_at(s, at);
    match time {
        Time::Power(p, e) => {
            if unit < p {
                return Read::Unformed;
            }
            Read::Said(unit, p, e)
        }
        Time::Unformed => Read::Unformed,
        Time::Barred(b, p) => Read::Barred(b, p),
    }
}

// The `/` and the precision behind the unit.
fn slash_form(s: &[u8], unit: usize, at: usize) -> Read
    ensures { result ≡ slash_form s.now unit at }
{
    let w = word_at(s, at);
    match w {
        Word::Found(t) => {
            if is_byte(s, t, 47) {
                return precision_form(s, unit, t.end);
            }
            Read::Unformed
        }
        Word::Missing => Read::Unformed,
        Word::Barred(b, p) => Read::Barred(b, p),
    }
}

fn timescale_form(s: &[u8], at: usize) -> Read
    ensures { result ≡ timescale_form s.now at }
{
    let time = time_at(s, at);
    match time {
        Time::Power(u, e) => slash_form(s, u, e),
        Time::Unformed => Read::Unformed,
        Time::Barred(b, p) => Read::Barred(b, p),
    }
}

// Whether `d` is a directive with one word of a table.
fn takes_entry(d: usize) -> bool
    ensures { result ≡ takes_entry d }
{
    (d == DEFAULT_NETTYPE) | ((d == UNCONNECTED_DRIVE) | (d == BEGIN_KEYWORDS))
}

// Of which kind its word is.
fn entry_kind(d: usize) -> usize
    ensures { result ≡ entry_kind d }
{
    if d == BEGIN_KEYWORDS {
        return STRING;
    }
    NAME
}

// The number of the word `w` in its table.
fn entry_in(d: usize, w: &[u8]) -> usize
    ensures { result ≡ entry_in d w.now }
{
    if d == DEFAULT_NETTYPE {
        return nettype_of(w);
    }
    if d == UNCONNECTED_DRIVE {
        return drive_of(w);
    }
    version_of(w)
}

fn entry_form(d: usize, s: &[u8], at: usize) -> Read
    ensures { result ≡ entry_form d s.now at }
{
    let w = word_at(s, at);
    match w {
        Word::Found(t) => {
            if t.kind != entry_kind(d) {
                return Read::Unformed;
            }
            let n = entry_in(d, part_of(s, t.at, t.end));
            if n == UNKNOWN {
                return Read::Unformed;
            }
            Read::Said(n, 0, t.end)
        }
        Word::Missing => Read::Unformed,
        Word::Barred(n, p) => Read::Barred(n, p),
    }
}

// A raw file name from `at` on: where its `>` stands on the line, and the refusal of a byte before it, or 0.
fn scan_raw(s: &[u8], at: usize) -> Option<(usize, usize)>
    ensures { result ≡ raw_end s.now at }
{
    let mut ok = true;
    for i in at..s.len() {
        let b = s[i];
        if b == 62 {
            let r = scan_at(i, ok, 0);
            return Some((i, r.bar));
        }
        if b == 10 {
            return None;
        }
        ok = ok & is_legal(b);
    }
    None
}

fn make_line(bars: Fault, file: FileName, end: usize, other: bool) -> IncludeLine
    ensures { result ≡ includeLine bars file end other }
{
    IncludeLine {
        bars,
        file,
        end,
        other,
    }
}

// The rest of the line behind the name `file`, which ends at `end`; `f`: what bars the line up to there.
fn line_behind(s: &[u8], file: FileName, end: usize, f: Fault) -> IncludeLine
    ensures { result ≡ behind_at s.now file end f }
{
    let mut i = end;
    let mut bars = f;
    let mut other = false;
    while i < s.len() {
        let t = token_at(s, i, in_file());
        if t.kind == NEWLINE {
            return make_line(bars, file, end, other);
        }
        bars = worse(bars, fault_of(t));
        other = other | !is_gap(t);
        if holds_in(s, t.at, t.end, 10) {
            return make_line(bars, file, end, other);
        }
        i = t.end;
    }
    make_line(bars, file, end, other)
}

// The line whose first word is the token `t`; `f`: what bars the line before it.
fn line_of(s: &[u8], t: Token, f: Fault) -> IncludeLine
    requires { (t.at < t.end) × (t.end < length s.now + 1) }
    ensures { result ≡ name_at s.now t f }
{
    if is_byte(s, t, 60) {
        let raw = scan_raw(s, t.end);
        match raw {
            Some((e, n)) => {
                return line_behind(
                    s,
                    FileName::Angled(t.end, e),
                    e + 1,
                    worse(
                        f,
                        Fault {
                            number: n,
                            place: t.at,
                        },
                    ),
                );
            }
            None => {
                return line_behind(s, FileName::Unnamed, t.end, f);
            }
        }
    }
    let g = worse(f, fault_of(t));
    if t.kind == STRING {
        return line_behind(s, FileName::Quoted(t.at + 1, t.end - 1), t.end, g);
    }
    line_behind(s, FileName::Unnamed, t.end, g)
}

// The line of the include whose word ends at `at`.
pub fn include_at(s: &[u8], at: usize) -> IncludeLine
    ensures { result ≡ include_at s.now at }
{
    let mut i = at;
    let mut bars = Fault {
        number: 0,
        place: 0,
    };
    while i < s.len() {
        let t = token_at(s, i, in_file());
        if t.kind == NEWLINE {
            return make_line(bars, FileName::Unnamed, at, false);
        }
        let next = worse(bars, fault_of(t));
        if holds_in(s, t.at, t.end, 10) {
            return make_line(next, FileName::Unnamed, at, false);
        }
        if !is_gap(t) {
            return line_of(s, t, bars);
        }
        bars = next;
        i = t.end;
    }
    make_line(bars, FileName::Unnamed, at, false)
}

fn include_form(s: &[u8], at: usize) -> Read
    ensures { result ≡ include_form s.now at }
{
    let l = include_at(s, at);
    let bars = l.bars;
    if bars.number != 0 {
        return Read::Barred(bars.number, bars.place);
    }
    let file = l.file;
    match file {
        FileName::Unnamed => Read::Unformed,
        FileName::Quoted(_, _) => Read::Said(0, 0, l.end),
        FileName::Angled(_, _) => Read::Said(0, 0, l.end),
    }
}

fn stands_alone(d: usize) -> bool
    ensures { result ≡ stands_alone d }
{
    (d == FILE_WORD)
        | ((d == LINE_WORD)
            | ((d == UNDEFINE_ALL)
                | ((d == ELSE)
                    | ((d == ENDIF)
                        | ((d == RESETALL)
                            | ((d == CELLDEFINE)
                                | ((d == END_CELLDEFINE)
                                    | ((d == NO_UNCONNECTED_DRIVE) | (d == END_KEYWORDS)))))))))
}

// What a directive says, by its numbers.
fn value_of(d: usize, a: usize, b: usize) -> Value
    ensures { result ≡ value_of d a b }
{
    if d == RESETALL {
        return Value::Reset;
    }
    if d == CELLDEFINE {
        return Value::Cell(1);
    }
    if d == END_CELLDEFINE {
        return Value::Cell(0);
    }
    if d == NO_UNCONNECTED_DRIVE {
        return Value::Drive(0);
    }
    if d == END_KEYWORDS {
        return Value::StartingSet;
    }
    if d == TIMESCALE {
        return Value::Times(a, b);
    }
    if d == DEFAULT_NETTYPE {
        return Value::NetType(a);
    }
    if d == UNCONNECTED_DRIVE {
        return Value::Drive(a);
    }
    if d == BEGIN_KEYWORDS {
        return Value::Version(a);
    }
    Value::Nothing
}

// The directive `d`, whose word ends at `at`; definitions and conditions have their own forms.
fn read_at(d: usize, s: &[u8], at: usize) -> Read
    ensures { result ≡ read_at d s.now at }
{
    if d == UNDEF {
        return undef_form(s, at);
    }
    if stands_alone(d) {
        return Read::Said(0, 0, at);
    }
    if d == INCLUDE {
        return include_form(s, at);
    }
    if d == TIMESCALE {
        return timescale_form(s, at);
    }
    if takes_entry(d) {
        return entry_form(d, s, at);
    }
    Read::Unformed
}

// The form of the directive `d`, whose word ends at `at`.
pub fn form_at(d: usize, s: &[u8], at: usize) -> Form
    ensures { result ≡ form_at d s.now at }
{
    let w = read_at(d, s, at);
    match w {
        Read::Said(a, b, e) => Form::Formed(value_of(d, a, b), e),
        Read::Unformed => Form::Unformed,
        Read::Barred(n, p) => Form::Barred(n, p),
    }
}

// The name behind the `undef` whose word ends at `at`.
pub fn undef_at(s: &[u8], at: usize) -> MacroName
    ensures { result ≡ undef_at s.now at }
{
    let w = read_at(UNDEF, s, at);
    match w {
        Read::Said(a, e, _) => MacroName::Named(a, e),
        Read::Unformed => MacroName::Unnamed,
        Read::Barred(n, p) => MacroName::Barred(n, p),
    }
}
