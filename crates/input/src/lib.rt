// The printing program's input (document 01): names, bodies and macro names in three sections, each after a two-byte count.
#![tactic(auto)]

ghost use Rattle.std.specs.Prelude.{◌≡◌, List, ℕ, min, ◌+◌, ◌<◌, ◌≤◌, length};
ghost use Rattle.input.specs.Sections.{rows, rows_at, name_at, body_at, start_at, with_names, input_of};
ghost use Rattle.input.specs.Filling.{NamesIn, NamesBy, BodiesBy, StartsBy, ParsedBy};

use text::{peek, two_at};

fn to_u32(x: usize) -> u32
    requires { x < 4294967296 }
    ensures { result ≡ x }
{
    x as u32
}

// Fills in the names from `at` on, `n` of them; where they end, if they are of the form.
fn parse_names(s: &[u8], at: usize, n: usize, table: &mut [[u32; 5]]) -> Option<usize>
    requires { (length s.now ≤ 1000000) × (at ≤ length s.now) }
    ensures { NamesBy result (rows_at name_at n s.now at) (length s.now) table.new }
{
    let mut i = at;
    for k in 0..n {
        let form = peek(s, i);
        let size = usize::from(peek(s, i + 1));
        if (s.len() < i + 2 + size) | (1 < form) {
            return None;
        }
        if k < table.len() {
            table[k] = [u32::from(form), to_u32(i + 2), to_u32(size), 0, 0];
        }
        i = i + 2 + size;
    }
    Some(i)
}

// Fills in the bodies; where they end.
fn parse_bodies(s: &[u8], at: usize, n: usize, table: &mut [[u32; 5]]) -> Option<usize>
    requires { (length s.now ≤ 1000000) × (at ≤ length s.now) }
    ensures { BodiesBy result (rows_at body_at n s.now at) (length s.now) table.old table.new }
{
    let mut i = at;
    for k in 0..n {
        let size = two_at(s, i);
        if s.len() < i + 2 + size {
            return None;
        }
        if k < table.len() {
            let v = table[k];
            table[k] = [v[0], v[1], v[2], to_u32(i + 2), to_u32(size)];
        }
        i = i + 2 + size;
    }
    Some(i)
}

// Fills in the ranges of the macro names; where they end.
fn parse_starts(s: &[u8], at: usize, n: usize, starts: &mut [[u32; 2]]) -> Option<usize>
    requires { (length s.now ≤ 1000000) × (at ≤ length s.now) }
    ensures { StartsBy result (rows_at start_at n s.now at) (length s.now) starts.new }
{
    let mut i = at;
    for k in 0..n {
        let size = usize::from(peek(s, i));
        if s.len() < i + 1 + size {
            return None;
        }
        if k < starts.len() {
            starts[k] = [to_u32(i + 1), to_u32(size)];
        }
        i = i + 1 + size;
    }
    Some(i)
}

// The bodies and the macro names behind the names, which end at `at`: how many files and start macros stand in the lent
// buffers.
fn parse_rest(
    s: &[u8],
    at: usize,
    n: usize,
    table: &mut [[u32; 5]],
    starts: &mut [[u32; 2]],
) -> Option<(usize, usize)>
    requires { (length s.now ≤ 1000000) × (at ≤ length s.now) }
    ensures { (vs : List (List ℕ)) → NamesIn vs n table.old → ParsedBy result (with_names s.now n (rows vs at)) table.new starts.new }
{
    if s.len() < at + 2 {
        return None;
    }
    if two_at(s, at) != n {
        return None;
    }
    let j = parse_bodies(s, at + 2, n, table)?;
    if s.len() < j + 2 {
        return None;
    }
    let m = two_at(s, j);
    let e = parse_starts(s, j + 2, m, starts)?;
    if e != s.len() {
        return None;
    }
    Some((n.min(table.len()), m.min(starts.len())))
}

// Fills the include table and the ranges of start macros, as far as they have room: how many files and how many start
// macros stand there, if the input is of the form.
pub fn parse(s: &[u8], table: &mut [[u32; 5]], starts: &mut [[u32; 2]]) -> Option<(usize, usize)>
    requires { length s.now ≤ 1000000 }
    ensures { ParsedBy result (input_of s.now) table.new starts.new }
{
    if s.len() < 2 {
        return None;
    }
    let n = two_at(s, 0);
    let i = parse_names(s, 2, n, table)?;
    parse_rest(s, i, n, table, starts)
}
