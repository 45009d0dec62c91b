// Writes the stored form of a macro (document 01, "Stored form") from its definition.
#![tactic(auto)]

ghost use Rattle.std.specs.Prelude.{ok_or, ◌≡◌, List, [], ◌∷◌, ◌++◌, ℕ, ◌≤◌, ◌<◌, length};
ghost use Rattle.std.proofs.Math.Option.{some};
ghost use Rattle.text.specs.Bytes.{part};
ghost use Rattle.storing.specs.Stored.{stored};
ghost use Rattle.definition.specs.Lists.{formals_at, whole};
ghost use Rattle.definition.specs.Definitions.{Macro, macro, good, parameter_of, parameters_of, shape_by, definition_at};
ghost use Rattle.form.specs.Forms.{two, sized, list_form, default_by, default_form, parameter_form, parameter_forms, head_form};
ghost use Rattle.form.specs.Putting.{Listed, PutBy, FormBy};

use definition::{Formal, Head, ReadError, extent_at, formal_at, head_at, shape_of};
use storing::store_text;
use text::part_of;

// Each function here that puts bytes answers how far the buffer is filled then, or None where one is too short.

fn push_byte(out: &mut [u8], n: usize, b: u8) -> Option<usize>
    requires { n ≤ length out.old }
    ensures { PutBy result ⊥ out.old out.new n (b ∷ []) }
{
    if out.len() <= n {
        return None;
    }
    out[n] = b;
    Some(n + 1)
}

// Two bytes of length, low first.
fn push_two(out: &mut [u8], n: usize, size: usize) -> Option<usize>
    requires { n ≤ length out.old }
    ensures { PutBy result ⊥ out.old out.new n (two size) }
{
    let m = push_byte(out, n, (size % 256) as u8)?;
    push_byte(out, m, (size / 256 % 256) as u8)
}

// The bytes of `w`.
fn push_bytes(w: &[u8], out: &mut [u8], n: usize) -> Option<usize>
    requires { n ≤ length out.old }
    ensures { PutBy result ⊥ out.old out.new n w.now }
{
    if out.len() - n < w.len() {
        return None;
    }
    let m = n + w.len();
    out[n..m].copy_from_slice(w);
    Some(m)
}

// Two bytes of length, and the bytes.
fn push_sized(w: &[u8], out: &mut [u8], n: usize) -> Option<usize>
    requires { n ≤ length out.old }
    ensures { PutBy result ⊥ out.old out.new n (sized w.now) }
{
    let m = push_two(out, n, w.len())?;
    push_bytes(w, out, m)
}

// The mark 1, and the default that is stored in the first `k` work bytes.
fn push_stored(work: &[u8], k: usize, out: &mut [u8], n: usize) -> Option<usize>
    requires { n ≤ length out.old }
    ensures { PutBy result ⊥ out.old out.new n (default_form (some (part work.now 0 k))) }
{
    let m = push_byte(out, n, 1)?;
    push_sized(part_of(work, 0, k), out, m)
}

// A formal's mark and default.
fn push_default(s: &[u8], f: Formal, work: &mut [u8], out: &mut [u8], n: usize) -> Option<usize>
    requires { n ≤ length out.old }
    ensures { PutBy result (length work.old < length s.now) out.old out.new n (default_form (default_by s.now f)) }
{
    if !f.given {
        let m = push_byte(out, n, 0)?;
        return push_two(out, m, 0);
    }
    let k = store_text(s, f.first, f.stop, work, 0)?;
    push_stored(work, k, out, n)
}

fn push_formal(s: &[u8], f: Formal, work: &mut [u8], out: &mut [u8], n: usize) -> Option<usize>
    requires { n ≤ length out.old }
    ensures { PutBy result (length work.old < length s.now) out.old out.new n (parameter_form (parameter_of s.now f)) }
{
    let m = push_sized(part_of(s, f.from, f.end), out, n)?;
    push_default(s, f, work, out, m)
}

// The formals of the list from `at` on.
fn push_formals(s: &[u8], at: usize, work: &mut [u8], out: &mut [u8], n: usize) -> Option<usize>
    requires { n ≤ length out.old }
    ensures { (fs : List Formal) (e : ℕ) → formals_at s.now at ≡ whole fs e → PutBy result (length work.old < length s.now) out.old out.new n (parameter_forms (parameters_of s.now fs)) }
{
    let mut i = at;
    let mut k = n;
    while i < s.len() {
        let f = formal_at(s, i, work).ok()?;
        k = push_formal(s, f, work, out, k)?;
        i = f.next;
        if f.last {
            return Some(k);
        }
    }
    None
}

// The formal count and the formals of a head.
fn push_list(
    s: &[u8],
    h: Head,
    count: usize,
    work: &mut [u8],
    out: &mut [u8],
    n: usize,
) -> Option<usize>
    requires { (n ≤ length out.old) × (count ≤ 16) }
    ensures { (fs : List Formal) (x : ℕ) → shape_by s.now h ≡ whole fs x → count ≡ length fs → PutBy result (length work.old < length s.now) out.old out.new n (list_form (parameters_of s.now fs)) }
{
    let m = push_byte(out, n, (count % 256) as u8)?;
    if h.listed {
        return push_formals(s, h.next, work, out, m);
    }
    Some(m)
}

// The text from `at` to before `end`, behind what stands before it.
fn push_text(
    s: &[u8],
    at: usize,
    end: usize,
    work: &mut [u8],
    out: &mut [u8],
    n: usize,
) -> Option<usize>
    requires { n ≤ length out.old }
    ensures { PutBy result (length work.old < length s.now) out.old out.new n (stored s.now at end) }
{
    let k = store_text(s, at, end, work, 0)?;
    push_bytes(part_of(work, 0, k), out, n)
}

// What stands before the text of a macro whose head is `h`: its name, the formal count, the formals.
fn push_head(s: &[u8], h: Head, count: usize, work: &mut [u8], out: &mut [u8]) -> Option<usize>
    requires { count ≤ 16 }
    ensures { (fs : List Formal) (x : ℕ) → shape_by s.now h ≡ whole fs x → count ≡ length fs → PutBy result (length work.old < length s.now) out.old out.new 0 (head_form (part s.now h.from h.end) (parameters_of s.now fs)) }
{
    let m = push_bytes(part_of(s, h.from, h.end), out, 0)?;
    push_list(s, h, count, work, out, m)
}

// The whole form of a macro whose head is `h` and whose text reaches from `text` to `end`: its length, and where its text
// starts.
fn write_macro(
    s: &[u8],
    h: Head,
    count: usize,
    text: usize,
    end: usize,
    work: &mut [u8],
    out: &mut [u8],
) -> Option<(usize, usize)>
    requires { (count ≤ 16) × Listed (shape_by s.now h) count text }
    ensures { (fs : List Formal) → shape_by s.now h ≡ whole fs text → count ≡ length fs → FormBy (ok_or result ReadError.NoRoom) s.now work.old (macro (part s.now h.from h.end) (parameters_of s.now fs) (stored s.now text end)) out.old out.new }
{
    let n = push_head(s, h, count, work, out)?;
    let m = push_text(s, text, end, work, out, n)?;
    Some((m, n))
}

// Writes the stored form of the good definition whose word ends at `at` to the front of `out`, with work bytes, of which
// as many as the text has are enough. Its length, and where its text starts; NoRoom where a buffer is too short.
pub fn write_form(
    s: &[u8],
    at: usize,
    work: &mut [u8],
    out: &mut [u8],
) -> Result<(usize, usize), ReadError>
    ensures { (m : Macro) (e : ℕ) → definition_at s.now at ≡ good m e → FormBy result s.now work.old m out.old out.new }
{
    let w = extent_at(s, at);
    let h = head_at(s, at);
    let (count, text) = shape_of(s, h, work)?;
    if 16 < count {
        return Err(ReadError::IllFormed);
    }
    write_macro(s, h, count, text, w.end, work, out).ok_or(ReadError::NoRoom)
}
