// What is handed over to flatten (document 01, "Hand-over"): the include table over the byte store, and refusal 1.
#![tactic(auto)]

ghost use Rattle.std.specs.Prelude.{◌≡◌, length, get_or, ℕ, ◌+◌, ◌<◌};
ghost use Rattle.text.specs.Bytes.{part};
ghost use Rattle.handover.specs.Entries.{blank_entry, entry_name, entry_body, is_name_byte, body_of, name_of, is_file_name, is_entry, all_entries, is_named, entry_of};
ghost use Rattle.handover.specs.Sizes.{is_sound};

use macros::starts_fit;
use text::{part_of, same};

// The part of `s` that a start and a length name.
fn part_in(s: &[u8], start: u32, size: u32) -> &[u8]
    ensures { result.now ≡ part s.now start (start + size) }
{
    part_of(s, start as usize, start as usize + size as usize)
}

fn name_in(s: &[u8], v: [u32; 5]) -> &[u8]
    ensures { result.now ≡ entry_name s.now v }
{
    part_in(s, v[1], v[2])
}

fn body_in(s: &[u8], v: [u32; 5]) -> &[u8]
    ensures { result.now ≡ entry_body s.now v }
{
    part_in(s, v[3], v[4])
}

// The name of entry `i`, as it stands in the byte store.
pub fn name_at<'a>(s: &'a [u8], table: &[[u32; 5]], i: usize) -> &'a [u8]
    requires { i < length table.now }
    ensures { result.now ≡ name_of s.now table.now i }
{
    name_in(s, table[i])
}

// The file of entry `i`.
pub fn body_at<'a>(s: &'a [u8], table: &[[u32; 5]], i: usize) -> &'a [u8]
    requires { i < length table.now }
    ensures { result.now ≡ body_of s.now table.now i }
{
    body_in(s, table[i])
}

fn is_name_byte(b: u8) -> bool
    ensures { result ≡ is_name_byte b }
{
    ((32 <= b) & (b <= 126)) & !((b == 34) | ((b == 92) | (b == 62)))
}

fn is_file_name(w: &[u8]) -> bool
    ensures { result ≡ is_file_name w.now }
{
    if (w.len() < 1) | (255 < w.len()) {
        return false;
    }
    w.iter().all(|&b| is_name_byte(b))
}

fn is_entry(s: &[u8], v: [u32; 5]) -> bool
    ensures { result ≡ is_entry s.now v }
{
    if 1 < v[0] {
        return false;
    }
    if s.len() < v[1] as usize + v[2] as usize {
        return false;
    }
    if s.len() < v[3] as usize + v[4] as usize {
        return false;
    }
    if 65535 < v[4] {
        return false;
    }
    is_file_name(name_in(s, v))
}

fn all_entries(s: &[u8], table: &[[u32; 5]]) -> bool
    ensures { result ≡ all_entries s.now table.now }
{
    table.iter().all(|&v| is_entry(s, v))
}

fn is_named(s: &[u8], v: [u32; 5], form: u32, w: &[u8]) -> bool
    ensures { result ≡ is_named s.now form w.now v }
{
    if v[0] != form {
        return false;
    }
    same(w, name_in(s, v))
}

// The number of the first entry of that form and name, or how many there are.
pub fn entry_of(s: &[u8], table: &[[u32; 5]], form: u32, w: &[u8]) -> usize
    ensures { result ≡ entry_of s.now form w.now table.now }
{
    table
        .iter()
        .position(|&v| is_named(s, v, form, w))
        .unwrap_or(table.len())
}

// Whether nothing of the hand-over gives refusal 1, by the lengths of the lent text, macro records and macro bytes.
pub fn is_sound(
    s: &[u8],
    table: &[[u32; 5]],
    root: usize,
    starts: &[[u32; 2]],
    set: usize,
    text: usize,
    records: usize,
    bytes: usize,
) -> bool
    ensures { (limit map : ℕ) → result ≡ is_sound (record { store = s.now; table = table.now; root = root; starts = starts.now; set = set; limit = limit }) (record { text = text; map = map; records = records; bytes = bytes }) }
{
    if (table.len() < 1) | (64 < table.len()) {
        return false;
    }
    if (table.len() <= root) | ((3 < set) | ((16777215 < text) | (65536 < bytes))) {
        return false;
    }
    if !all_entries(s, table) {
        return false;
    }
    starts_fit(s, starts, records, bytes)
}
