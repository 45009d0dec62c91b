// Sets of macros (document 01, "Macros"): a macro is its number in the store, below 256; a set is the bits of four words.
#![tactic(auto)]

ghost use Rattle.std.specs.Prelude.{◌≡◌, [], ◌<◌, ◌/◌, ◌%◌, ◌^◌, eqb, length};
ghost use Rattle.sets.specs.Sets.{elem, insert_asc, members, put};

// Number i is bit i % 64 of word i / 64.
#[derive(Clone, Copy)]
pub struct MacroSet {
    pub w0: u64,
    pub w1: u64,
    pub w2: u64,
    pub w3: u64,
}

// Whether bit `k` of `w` is set.
fn bit(w: u64, k: u64) -> bool
    requires { k < 64 }
    ensures { result ≡ eqb (w / 2 ^ k % 2) 1 }
{
    (w >> k) % 2 == 1
}

// `w` with bit `k` set.
fn with_bit(w: u64, k: u64) -> u64
    requires { k < 64 }
    ensures { result ≡ put w k }
{
    if bit(w, k) {
        return w;
    }
    w + (1u64 << k)
}

// The set of a usage in a file.
pub fn empty() -> MacroSet
    ensures { members result ≡ [] }
{
    MacroSet {
        w0: 0,
        w1: 0,
        w2: 0,
        w3: 0,
    }
}

// Whether macro `i` is in the set: a usage of it is then recursive.
pub fn member(s: MacroSet, i: u64) -> bool
    requires { i < 256 }
    ensures { result ≡ elem i (members s) }
{
    let k = i % 64;
    if i < 64 {
        return bit(s.w0, k);
    }
    if i < 128 {
        return bit(s.w1, k);
    }
    if i < 192 {
        return bit(s.w2, k);
    }
    bit(s.w3, k)
}

// The set with macro `i`: that of the tokens which come out of its text.
pub fn insert(s: MacroSet, i: u64) -> MacroSet
    requires { i < 256 }
    ensures { members result ≡ insert_asc i (members s) }
{
    let k = i % 64;
    if i < 64 {
        return MacroSet {
            w0: with_bit(s.w0, k),
            ..s
        };
    }
    if i < 128 {
        return MacroSet {
            w1: with_bit(s.w1, k),
            ..s
        };
    }
    if i < 192 {
        return MacroSet {
            w2: with_bit(s.w2, k),
            ..s
        };
    }
    MacroSet {
        w3: with_bit(s.w3, k),
        ..s
    }
}

// How many macros are in the set, which is how deep its token is nested.
pub fn size(s: MacroSet) -> u32
    ensures { result ≡ length (members s) }
{
    s.w0.count_ones() + s.w1.count_ones() + s.w2.count_ones() + s.w3.count_ones()
}
