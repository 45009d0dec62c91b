// What macros reach (document 01, "reaches these and what they reach"): rows of bits, row i the macros that macro i uses,
// become rows of what they reach.
#![tactic(auto)]

ghost use Rattle.std.specs.Prelude.{◌≡◌, ◌||◌, ℕ, ◌<◌, ◌≤◌, length};
ghost use Rattle.sets.specs.Sets.{elem, members};
ghost use Rattle.reach.specs.Reaching.{set_of, row_of, Fits, Joined, JoinedAll, Closed};

use sets::MacroSet;

pub fn set_of(v: [u64; 4]) -> MacroSet
    ensures { result ≡ set_of v }
{
    MacroSet {
        w0: v[0],
        w1: v[1],
        w2: v[2],
        w3: v[3],
    }
}

pub fn row_of(s: MacroSet) -> [u64; 4]
    ensures { result ≡ row_of s }
{
    [s.w0, s.w1, s.w2, s.w3]
}

// The macros of either set.
fn union(a: MacroSet, b: MacroSet) -> MacroSet
    ensures { (i : ℕ) → elem i (members result) ≡ (elem i (members a) || elem i (members b)) }
{
    MacroSet {
        w0: a.w0 | b.w0,
        w1: a.w1 | b.w1,
        w2: a.w2 | b.w2,
        w3: a.w3 | b.w3,
    }
}

// If macro `i` reaches macro `k`, it reaches what that reaches.
fn join_row(rows: &mut [[u64; 4]], i: usize, k: usize)
    requires { (i < length rows.old) × (k < length rows.old) × (k < 256) }
    ensures { Joined rows.old rows.new i k }
{
    let s = set_of(rows[i]);
    if sets::member(s, k as u64) {
        rows[i] = row_of(union(s, set_of(rows[k])));
    }
}

// .. each of the first `n` macros.
fn join_rows(rows: &mut [[u64; 4]], n: usize, k: usize)
    requires { (n ≤ length rows.old) × (k < n) × (n ≤ 256) }
    ensures { JoinedAll rows.old rows.new n k }
{
    for i in 0..n {
        join_row(rows, i, k);
    }
}

// Rows of what the first `n` macros use become rows of what they reach.
pub fn close_rows(rows: &mut [[u64; 4]], n: usize)
    requires { Fits rows.old n }
    ensures { Closed rows.old rows.new n }
{
    for k in 0..n {
        join_rows(rows, n, k);
    }
}
