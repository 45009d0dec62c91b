// The words of the technician's command line: commands, options, numbers, keyword sets.
#![tactic(auto)]

use plan::{Command, Output};

// An option that has a value.
#[derive(Clone, Copy)]
pub enum Valued {
    Macro,
    Folder,
    // a list of words
    List,
    Output(Output),
    Included,
    // a file for an include in angle brackets
    Angled,
    Strip,
    Set,
    Limit,
    // the name behind the command `lookup`
    Name,
}

// An option without a value.
#[derive(Clone, Copy)]
pub enum Flag {
    Help,
    Version,
    Quiet,
    Silent,
    Strict,
    Lines,
    Defines,
    // only files follow
    End,
}

// What a word is that is no option's value.
#[derive(Clone, Copy)]
pub enum Word<'a> {
    File,
    // an option whose value is the rest of the word, or else the next word
    Valued(Valued, Option<&'a [u8]>),
    // `+define+`: values with `+` between them
    Macros(&'a [u8]),
    // `+incdir+`: likewise
    Folders(&'a [u8]),
    Flag(Flag),
    Unknown,
}

// The option of one hyphen and that letter.
fn letter_of<'a>(b: u8) -> Word<'a> {
    let kind = match b {
        b'D' => Valued::Macro,
        b'I' => Valued::Folder,
        b'f' => Valued::List,
        b'o' => Valued::Output(Output::Text),
        b'm' => Valued::Output(Output::Map),
        b'w' => Valued::Output(Output::Words),
        b'h' => return Word::Flag(Flag::Help),
        b'q' => return Word::Flag(Flag::Quiet),
        _ => return Word::Unknown,
    };
    Word::Valued(kind, None)
}

// An option of one hyphen: `-MD`, or one letter, or one letter with its value.
fn short_of(letter: u8, rest: &[u8]) -> Word<'_> {
    if (letter == b'M') & (rest == b"D".as_slice()) {
        return Word::Valued(Valued::Output(Output::Rule), None);
    }
    let word = letter_of(letter);
    if rest.is_empty() {
        return word;
    }
    match word {
        Word::Valued(kind, _) => Word::Valued(kind, Some(rest)),
        _ => Word::Unknown,
    }
}

fn valued_of(name: &[u8]) -> Option<Valued> {
    match name {
        b"include" => Some(Valued::Included),
        b"angle" => Some(Valued::Angled),
        b"strip" => Some(Valued::Strip),
        b"set" => Some(Valued::Set),
        b"limit" => Some(Valued::Limit),
        _ => None,
    }
}

fn flag_of(name: &[u8]) -> Option<Flag> {
    match name {
        b"no-warnings" => Some(Flag::Silent),
        b"strict" => Some(Flag::Strict),
        b"lines" => Some(Flag::Lines),
        b"defines" => Some(Flag::Defines),
        b"version" => Some(Flag::Version),
        b"help" => Some(Flag::Help),
        b"" => Some(Flag::End),
        _ => None,
    }
}

// An option of two hyphens, which stand before `w`; its value may stand behind a `=`.
fn long_of(w: &[u8]) -> Word<'_> {
    let equals = w.iter().position(|b| *b == b'=');
    let name = match equals {
        Some(n) => &w[..n],
        None => w,
    };
    if let Some(kind) = valued_of(name) {
        return Word::Valued(kind, equals.map(|n| &w[n + 1..]));
    }
    match flag_of(w) {
        Some(flag) => Word::Flag(flag),
        None => Word::Unknown,
    }
}

fn plus_of(w: &[u8]) -> Word<'_> {
    if let Some(values) = w.strip_prefix(b"+define+") {
        return Word::Macros(values);
    }
    match w.strip_prefix(b"+incdir+") {
        Some(values) => Word::Folders(values),
        None => Word::Unknown,
    }
}

// What a word is that is no option's value.
pub fn word_of(w: &[u8]) -> Word<'_> {
    match w {
        [b'+', ..] => plus_of(w),
        [b'-', b'-', rest @ ..] => long_of(rest),
        [b'-', letter, rest @ ..] => short_of(*letter, rest),
        _ => Word::File,
    }
}

// The command that a first argument names.
pub fn command_of(w: &[u8]) -> Option<Command> {
    match w {
        b"pass" => Some(Command::Pass),
        b"lookup" => Some(Command::LookUp),
        b"words" => Some(Command::Classify),
        _ => None,
    }
}

// The decimal number in `digits`, where it is one below 4,000,000,000.
pub fn number_of(digits: &[u8]) -> Option<usize> {
    if digits.is_empty() {
        return None;
    }
    let mut n: usize = 0;
    for b in digits {
        if !b.is_ascii_digit() {
            return None;
        }
        if 400000000 <= n {
            return None;
        }
        n = n * 10 + (*b - b'0') as usize;
    }
    Some(n)
}

// A keyword set by its version, as `begin_keywords` names it, but without quotes.
pub fn set_of(w: &[u8]) -> Option<usize> {
    match w {
        b"1364-1995" => Some(0),
        b"1364-2001" => Some(1),
        b"1364-2005" => Some(2),
        b"1800-2005" => Some(3),
        _ => None,
    }
}
