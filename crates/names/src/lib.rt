// The directive names and the words of their forms, compared as fixed byte strings.
#![tactic(auto)]

ghost use Rattle.std.specs.Prelude.{◌≡◌};
ghost use Rattle.names.specs.Names.{directive_of, state_of, other_of, unit_of, nettype_of, drive_of, version_of};

use text::same;

// The numbers of the directives; 0 is none.
pub const FILE_WORD: usize = 1;

pub const LINE_WORD: usize = 2;

pub const DEFINE: usize = 3;

pub const UNDEF: usize = 4;

pub const UNDEFINE_ALL: usize = 5;

pub const IFDEF: usize = 6;

pub const IFNDEF: usize = 7;

pub const ELSIF: usize = 8;

pub const ELSE: usize = 9;

pub const ENDIF: usize = 10;

pub const INCLUDE: usize = 11;

pub const RESETALL: usize = 12;

pub const TIMESCALE: usize = 13;

pub const DEFAULT_NETTYPE: usize = 14;

pub const CELLDEFINE: usize = 15;

pub const END_CELLDEFINE: usize = 16;

pub const UNCONNECTED_DRIVE: usize = 17;

pub const NO_UNCONNECTED_DRIVE: usize = 18;

pub const BEGIN_KEYWORDS: usize = 19;

pub const END_KEYWORDS: usize = 20;

pub const KEYWORDS: usize = 21;

pub const OLD_END_KEYWORDS: usize = 22;

pub const LINE: usize = 23;

pub const PRAGMA: usize = 24;

// No word of a table.
pub const UNKNOWN: usize = 99;

// The number of the directive of that name. Here and in the six chains below a `match` on the byte strings was tried, and its
// proof did not close: it leaves a goal at each byte where a word can part from the table, nine for two words.
pub fn directive_of(name: &[u8]) -> usize
    ensures { result ≡ directive_of name.now }
{
    if same(name, b"define") {
        return DEFINE;
    }
    if same(name, b"undef") {
        return UNDEF;
    }
    if same(name, b"undefineall") {
        return UNDEFINE_ALL;
    }
    if same(name, b"ifdef") {
        return IFDEF;
    }
    if same(name, b"ifndef") {
        return IFNDEF;
    }
    if same(name, b"elsif") {
        return ELSIF;
    }
    if same(name, b"else") {
        return ELSE;
    }
    if same(name, b"endif") {
        return ENDIF;
    }
    state_directive(name)
}

// Directives of files and of the state of a design, and the others.
fn state_directive(name: &[u8]) -> usize
    ensures { result ≡ state_of name.now }
{
    if same(name, b"include") {
        return INCLUDE;
    }
    if same(name, b"resetall") {
        return RESETALL;
    }
    if same(name, b"timescale") {
        return TIMESCALE;
    }
    if same(name, b"default_nettype") {
        return DEFAULT_NETTYPE;
    }
    if same(name, b"celldefine") {
        return CELLDEFINE;
    }
    if same(name, b"endcelldefine") {
        return END_CELLDEFINE;
    }
    if same(name, b"unconnected_drive") {
        return UNCONNECTED_DRIVE;
    }
    if same(name, b"nounconnected_drive") {
        return NO_UNCONNECTED_DRIVE;
    }
    other_directive(name)
}

// Directives of keywords, those left out, and the two `__` words.
fn other_directive(name: &[u8]) -> usize
    ensures { result ≡ other_of name.now }
{
    if same(name, b"begin_keywords") {
        return BEGIN_KEYWORDS;
    }
    if same(name, b"end_keywords") {
        return END_KEYWORDS;
    }
    if same(name, b"keywords") {
        return KEYWORDS;
    }
    if same(name, b"endkeywords") {
        return OLD_END_KEYWORDS;
    }
    if same(name, b"line") {
        return LINE;
    }
    if same(name, b"pragma") {
        return PRAGMA;
    }
    if same(name, b"__FILE__") {
        return FILE_WORD;
    }
    if same(name, b"__LINE__") {
        return LINE_WORD;
    }
    0
}

// A time unit as a power of ten, 1 fs is 0.
pub fn unit_of(word: &[u8]) -> usize
    ensures { result ≡ unit_of word.now }
{
    if same(word, b"s") {
        return 15;
    }
    if same(word, b"ms") {
        return 12;
    }
    if same(word, b"us") {
        return 9;
    }
    if same(word, b"ns") {
        return 6;
    }
    if same(word, b"ps") {
        return 3;
    }
    if same(word, b"fs") {
        return 0;
    }
    UNKNOWN
}

// A net type, numbered as in document 01.
pub fn nettype_of(word: &[u8]) -> usize
    ensures { result ≡ nettype_of word.now }
{
    if same(word, b"wire") {
        return 0;
    }
    if same(word, b"tri") {
        return 1;
    }
    if same(word, b"tri0") {
        return 2;
    }
    if same(word, b"tri1") {
        return 3;
    }
    if same(word, b"wand") {
        return 4;
    }
    if same(word, b"triand") {
        return 5;
    }
    if same(word, b"wor") {
        return 6;
    }
    if same(word, b"trior") {
        return 7;
    }
    if same(word, b"trireg") {
        return 8;
    }
    if same(word, b"uwire") {
        return 9;
    }
    if same(word, b"none") {
        return 10;
    }
    UNKNOWN
}

// A drive: 1 or 2.
pub fn drive_of(word: &[u8]) -> usize
    ensures { result ≡ drive_of word.now }
{
    if same(word, b"pull0") {
        return 1;
    }
    if same(word, b"pull1") {
        return 2;
    }
    UNKNOWN
}

// A quoted version, numbered from 0.
pub fn version_of(word: &[u8]) -> usize
    ensures { result ≡ version_of word.now }
{
    if same(word, b"\"1364-1995\"") {
        return 0;
    }
    if same(word, b"\"1364-2001\"") {
        return 1;
    }
    if same(word, b"\"1364-2005\"") {
        return 2;
    }
    if same(word, b"\"1800-2005\"") {
        return 3;
    }
    UNKNOWN
}
