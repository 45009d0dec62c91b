// Byte strings: reading one byte, comparing words, byte order.
#![tactic(auto)]

ghost use Rattle.std.specs.Prelude.{◌≡◌, ◌≤◌, get_or, drop};
ghost use Rattle.text.specs.Bytes.{begins, holds, part, two_at};
ghost use Rattle.text.specs.Bytes.{same as sameBytes};
ghost use Rattle.text.specs.Order.{order_of};

use std::cmp::Ordering;

// The byte at an index; 0, which no token has, past the end.
pub fn peek(s: &[u8], at: usize) -> u8
    ensures { result ≡ get_or s.now at 0 }
{
    s.get(at).copied().unwrap_or(0)
}

// Two bytes, low first; those past the end 0.
pub fn two_at(s: &[u8], at: usize) -> usize
    requires { at ≤ 4611686018427387904 }
    ensures { (result ≡ two_at s.now at) × (result ≤ 65535) }
{
    peek(s, at) as usize + 256 * (peek(s, at + 1) as usize)
}

// Whether two words are the same. A `for`: names are compared with many words, most of them short and of other lengths, and `==`
// took up to a third more time there.
pub fn same(s: &[u8], word: &[u8]) -> bool
    ensures { result ≡ sameBytes s.now word.now }
{
    if s.len() != word.len() {
        return false;
    }
    for i in 0..word.len() {
        if s[i] != word[i] {
            return false;
        }
    }
    true
}

// Whether `word` stands in `s` at byte `at`.
pub fn begins_at(s: &[u8], at: usize, word: &[u8]) -> bool
    ensures { result ≡ begins (drop at s.now) word.now }
{
    s[at.min(s.len())..].starts_with(word)
}

// Whether the byte `b` stands in `s` from `at` to before `end`.
pub fn holds_in(s: &[u8], at: usize, end: usize, b: u8) -> bool
    ensures { result ≡ holds b (part s.now at end) }
{
    part_of(s, at, end).contains(&b)
}

// The part of `s` from `at` to before `end`, as far as it lies in `s`.
pub fn part_of(s: &[u8], at: usize, end: usize) -> &[u8]
    ensures { result.now ≡ part s.now at end }
{
    let end = end.min(s.len());
    &s[at.min(end)..end]
}

// Byte order: the first byte that differs decides, and a string stands before what it begins.
pub fn compare(a: &[u8], b: &[u8]) -> Ordering
    ensures { result ≡ order_of a.now b.now }
{
    a.cmp(b)
}
