// Classify (document 01, "Reserved words"): the plain names of a text outside directives, reserved or not, for a C host.
#![tactic(auto)]

ghost use Rattle.std.specs.Prelude.{◌≡◌, [], ◌∷◌, ◌≤◌, ◌-◌, ◌<◌, length};
ghost use Rattle.lex.specs.Tokens.{name_of};
ghost use Rattle.definition.specs.Definitions.{definition_at};
ghost use Rattle.definition.specs.Answers.{judged_of};
ghost use Rattle.keywords.specs.Tables.{Tables};
ghost use Rattle.conditions.specs.Grammar.{is_defined, condition_at};
ghost use Rattle.classify.specs.Words.{by_form, by_definition, by_condition, takes_condition, past_directive, past_grave, word_of, words_of};
ghost use Rattle.classify.specs.Answer.{refused_line, outcome_of, Listed, Answered};

use conditions::condition_at;
use definition::{Judged, judge_definition};
use directive::{Form, form_at};
use keywords::{BYTES, FIRSTS, STARTS, is_reserved};
use lex::{Fault, GRAVE, NAME, Token, in_file, token_at};
use names::{DEFINE, ELSIF, IFDEF, IFNDEF, directive_of};
use places::line_at;
use settings::keywords_after;
use text::part_of;

// The answer: the refusal's number, or 0; its line from 1 and its byte from 0, both 0 for refusal 1 and where nothing
// is refused; the words written.
#[repr(C)]
#[derive(Clone, Copy)]
pub struct Classified {
    pub number: usize,
    pub line: usize,
    pub byte: usize,
    pub words: usize,
}

// How a text was read: the refusal, or 0, with its place, and the words written. A number and no `Option`: C's answer has it so,
// and the words are counted either way.
#[derive(Clone, Copy)]
pub struct Ended {
    pub number: usize,
    pub place: usize,
    pub words: usize,
}

// Past a directive by its form, where only its word, which ends at `at`, is skipped if it is ill_formed: where to read on, and
// in which keyword set.
fn past_form(f: Form, start: usize, set: usize, at: usize) -> Result<(usize, usize), Fault>
    ensures { result ≡ by_form start set at f }
{
    match f {
        Form::Formed(v, e) => Ok((e, keywords_after(v, start, set))),
        Form::Unformed => Ok((at, set)),
        Form::Barred(n, p) => Err(Fault {
            number: n,
            place: p,
        }),
    }
}

// The definition whose word ends at `at`, judged with bytes for the brackets of any text. Its large array stays out of the frames of
// its callers.
#[inline(never)]
fn judge_deep(s: &[u8], at: usize, name: &mut [u8]) -> Judged
    requires { (length s.now ≤ 16777215) × (1025 ≤ length name.old) }
    ensures { result ≡ judged_of (definition_at s.now at) }
{
    let mut stack = [0u8; 4194304];
    judge_definition(s, at, name, &mut stack)
}

// With the lent bytes for brackets first, then with more.
fn judge(s: &[u8], at: usize, name: &mut [u8], stack: &mut [u8]) -> Judged
    requires { (length s.now ≤ 16777215) × (1025 ≤ length name.old) }
    ensures { result ≡ judged_of (definition_at s.now at) }
{
    let r = judge_definition(s, at, name, stack);
    let Judged::Short = r else {
        return r;
    };
    judge_deep(s, at, name)
}

// Past the definition whose word ends at `at`.
fn past_definition(
    s: &[u8],
    at: usize,
    set: usize,
    name: &mut [u8],
    stack: &mut [u8],
) -> Result<(usize, usize), Fault>
    requires { (length s.now ≤ 16777215) × (1025 ≤ length name.old) }
    ensures { result ≡ by_definition set at (definition_at s.now at) }
{
    let r = judge(s, at, name, stack);
    match r {
        Judged::Barred(n, p) => Err(Fault {
            number: n,
            place: p,
        }),
        Judged::Bad(_) => Ok((at, set)),
        Judged::Good(e) => Ok((e, set)),
        Judged::Short => Ok((at, set)),
    }
}

// Past a conditional word, which ends at `at`, by its condition.
fn past_condition(
    c: Result<(bool, usize), Fault>,
    at: usize,
    set: usize,
) -> Result<(usize, usize), Fault>
    ensures { result ≡ by_condition set at c }
{
    match c {
        Ok((_, e)) => Ok((e, set)),
        Err(f) if f.number == 7 => Ok((at, set)),
        Err(f) => Err(f),
    }
}

// The condition behind the conditional word `t`, where nothing is defined.
fn condition_form(s: &[u8], t: Token) -> Result<(bool, usize), Fault>
    ensures { result ≡ condition_at s.now (is_defined []) t }
{
    let bytes = [0u8; 1];
    let records = [[0u32; 4]; 1];
    condition_at(s, t, &bytes, &records, 0)
}

fn takes_condition(d: usize) -> bool
    ensures { result ≡ takes_condition d }
{
    (d == IFDEF) | ((d == IFNDEF) | (d == ELSIF))
}

// Past the directive `d`, whose word is `t`.
fn past_directive(
    d: usize,
    s: &[u8],
    t: Token,
    start: usize,
    set: usize,
    name: &mut [u8],
    stack: &mut [u8],
) -> Result<(usize, usize), Fault>
    requires { (length s.now ≤ 16777215) × (1025 ≤ length name.old) }
    ensures { result ≡ past_directive d start set s.now t }
{
    if d == DEFINE {
        return past_definition(s, t.end, set, name, stack);
    }
    if takes_condition(d) {
        return past_condition(condition_form(s, t), t.end, set);
    }
    past_form(form_at(d, s, t.end), start, set, t.end)
}

// Past the grave accent name `t`.
fn past_grave(
    s: &[u8],
    t: Token,
    start: usize,
    set: usize,
    name: &mut [u8],
    stack: &mut [u8],
) -> Result<(usize, usize), Fault>
    requires { (length s.now ≤ 16777215) × (1025 ≤ length name.old) }
    ensures { result ≡ past_grave start set s.now t }
{
    let d = directive_of(part_of(s, t.from, t.end));
    past_directive(d, s, t, start, set, name, stack)
}

// The name `t` as a word, by the three keyword tables.
fn word_of(
    s: &[u8],
    t: Token,
    set: usize,
    bytes: &[u8],
    starts: &[usize],
    firsts: &[usize],
) -> [u32; 3]
    requires { (t.at ≤ t.end) × (t.end ≤ 16777215) × Tables bytes.now starts.now firsts.now }
    ensures { result ≡ word_of s.now set t }
{
    let reserved = is_reserved(bytes, starts, firsts, part_of(s, t.from, t.end), set);
    [t.at as u32, (t.end - t.at) as u32, u32::from(reserved)]
}

fn make_ended(number: usize, place: usize, words: usize) -> Ended
    ensures { result ≡ record { number = number; place = place; words = words } }
{
    Ended {
        number,
        place,
        words,
    }
}

// Lists the words of a text in the keyword set `start`, by the three keyword tables, with bytes for the names and brackets of definitions.
fn list_words(
    s: &[u8],
    start: usize,
    words: &mut [[u32; 3]],
    bytes: &[u8],
    starts: &[usize],
    firsts: &[usize],
    name: &mut [u8],
    stack: &mut [u8],
) -> Ended
    requires { (length s.now ≤ 16777215) × (1025 ≤ length name.old) × Tables bytes.now starts.now firsts.now }
    ensures { Listed start s.now words.old words.new result }
{
    let mut i = 0;
    let mut set = start;
    let mut n = 0;
    while i < s.len() {
        let t = token_at(s, i, in_file());
        if t.bar != 0 {
            return make_ended(t.bar, i, n);
        }
        if t.kind == NAME {
            if words.len() <= n {
                return make_ended(21, i, n);
            }
            words[n] = word_of(s, t, set, bytes, starts, firsts);
            n += 1;
            i = t.end;
            continue;
        }
        if t.kind != GRAVE {
            i = t.end;
            continue;
        }
        let p = past_grave(s, t, start, set, name, stack);
        match p {
            Ok((e, v)) => {
                i = e;
                set = v;
            }
            Err(f) => {
                return make_ended(f.number, f.place, n);
            }
        }
    }
    make_ended(0, 0, n)
}

// The line of a refusal's place.
fn line_of(s: &[u8], number: usize, place: usize) -> usize
    ensures { result ≡ refused_line s.now number place }
{
    if number <= 1 {
        return 0;
    }
    line_at(s, place)
}

// Classifies a text of a size that is taken, in one of the four keyword sets.
fn classify_with(
    text: &[u8],
    set: usize,
    words: &mut [[u32; 3]],
    bytes: &[u8],
    starts: &[usize],
    firsts: &[usize],
    name: &mut [u8],
    stack: &mut [u8],
) -> Classified
    requires { (length text.now ≤ 16777215) × (1025 ≤ length name.old) × Tables bytes.now starts.now firsts.now }
    ensures { Answered text.now (words_of set text.now (length words.old)) words.old words.new result }
{
    let e = list_words(text, set, words, bytes, starts, firsts, name, stack);
    Classified {
        number: e.number,
        line: line_of(text, e.number, e.place),
        byte: e.place,
        words: e.words,
    }
}

// With the keyword tables, which stand here only: a function that names one builds it.
fn classify_taken(text: &[u8], set: usize, words: &mut [[u32; 3]]) -> Classified
    requires { length text.now ≤ 16777215 }
    ensures { Answered text.now (words_of set text.now (length words.old)) words.old words.new result }
{
    let bytes = BYTES;
    let starts = STARTS;
    let firsts = FIRSTS;
    let mut name = [0u8; 1025];
    let mut stack = [0u8; 16384];
    classify_with(
        text, set, words, &bytes, &starts, &firsts, &mut name, &mut stack,
    )
}

// Every plain name of `text` outside directives, as offset, length and 1 if the keyword set in force reserves it, else
// 0. `set` is the keyword set at the start: 0 for 1364-1995, 1 for 1364-2001, 2 for 1364-2005, 3 for 1800-2005.
pub fn classify(text: &[u8], set: u32, words: &mut [[u32; 3]]) -> Classified
    ensures { Answered text.now (outcome_of set text.now (length words.old)) words.old words.new result }
{
    if (3 < set) | (16777215 < text.len()) {
        return Classified {
            number: 1,
            line: 0,
            byte: 0,
            words: 0,
        };
    }
    classify_taken(text, set as usize, words)
}
