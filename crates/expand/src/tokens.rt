// One pending token that is no usage, written.
ghost use Rattle.std.specs.Prelude.{◌≡◌, false, [], ◌∷◌, ◌++◌, ◌+◌, ◌≤◌, length};
ghost use Rattle.text.specs.Bytes.{part};
ghost use Rattle.storing.specs.Stored.{joined_from};
ghost use Rattle.writing.specs.Written.{placed};
ghost use Rattle.writing.specs.Buffers.{WroteBy};
ghost use Rattle.pending.specs.References.{raw_of, pending_by};
ghost use Rattle.expand.specs.Expanding.{spelled, writes};
ghost use Rattle.expand.specs.Standing.{outer, Within, Spells};

use lex::{ESCAPED, ESCAPED_QUOTE, GRAVE, JOINER, QUOTE, STRING};
use names::directive_of;
use pending::{JOINED_FILE, Pend, SPACE, bytes_at, name_of};
use storing::{put_byte, put_bytes, put_joined};
use text::part_of;
use writing::{Spot, Wrote, write_whole};

// A string without each `\` and newline, from the second byte of `work` to before the answer.
fn join(w: &[u8], work: &mut [u8]) -> usize
    requires { length w.now + 3 ≤ length work.old }
    ensures { part work.new 1 result ≡ joined_from false w.now }
{
    match put_joined(w, 0, w.len(), work, 0, 1) {
        Some(m) => m,
        None => 1,
    }
}

// Bytes and a space behind them, likewise.
fn add_space(w: &[u8], work: &mut [u8]) -> usize
    requires { length w.now + 3 ≤ length work.old }
    ensures { part work.new 1 result ≡ w.now ++ (32 ∷ []) }
{
    match put_bytes(w, 0, w.len(), work, 0, 1) {
        Some(m) => put_byte(work, 0, m, b' ').unwrap_or(1),
        None => 1,
    }
}

// A token's bytes and a space behind them, likewise.
fn space_out<'a>(s: &'a [u8], b: &'a [u8], p: Pend, work: &mut [u8]) -> usize
    requires { (length s.now ≤ 65535) × (length b.now ≤ 65536) × (65539 ≤ length work.old) }
    ensures { part work.new 1 result ≡ raw_of s.now b.now p ++ (32 ∷ []) }
{
    if p.source == SPACE {
        return add_space(b" ", work);
    }
    add_space(bytes_at(s, b, p), work)
}

// Writes the bytes of `work` from the second to before `n`.
fn write_part(work: &[u8], n: usize, place: u32, text: &mut [u8], map: &mut [u32], z: Spot) -> Wrote
    requires { Within text.old map.old z }
    ensures { WroteBy result (placed 0 place (part work.now 1 n)) text.old text.new map.old map.new z }
{
    write_whole(part_of(work, 1, n), place, 0, text, map, z)
}

// Writes a token's own bytes.
fn write_spelled<'a>(
    s: &'a [u8],
    b: &'a [u8],
    p: Pend,
    place: u32,
    work: &mut [u8],
    text: &mut [u8],
    map: &mut [u32],
    z: Spot,
) -> Wrote
    requires { Spells s.now b.now work.old text.old map.old z }
    ensures { WroteBy result (placed 0 place (spelled (pending_by s.now b.now p))) text.old text.new map.old map.new z }
{
    if p.kind == ESCAPED {
        let n = space_out(s, b, p, work);
        return write_part(work, n, place, text, map, z);
    }
    if p.source == SPACE {
        return write_whole(b" ", place, 0, text, map, z);
    }
    let w = bytes_at(s, b, p);
    if (p.kind == STRING) & (JOINED_FILE <= p.source) {
        let n = join(w, work);
        return write_part(work, n, place, text, map, z);
    }
    write_whole(w, place, 0, text, map, z)
}

// Writes a token that is no usage.
pub(crate) fn write_token<'a>(
    s: &'a [u8],
    b: &'a [u8],
    p: Pend,
    file: &[u8],
    line: &[u8],
    place: u32,
    work: &mut [u8],
    text: &mut [u8],
    map: &mut [u32],
    z: Spot,
) -> Wrote
    requires { Spells s.now b.now work.old text.old map.old z }
    ensures { WroteBy result (placed 0 place (writes (outer file.now line.now place) (pending_by s.now b.now p))) text.old text.new map.old map.new z }
{
    if p.kind == QUOTE {
        return write_whole(b"\"", place, 0, text, map, z);
    }
    if p.kind == ESCAPED_QUOTE {
        return write_whole(b"\\\"", place, 0, text, map, z);
    }
    if p.kind == JOINER {
        return write_whole(b"", place, 0, text, map, z);
    }
    if p.kind == GRAVE {
        if directive_of(name_of(s, b, p)) == 1 {
            return write_whole(file, place, 0, text, map, z);
        }
        return write_whole(line, place, 0, text, map, z);
    }
    write_spelled(s, b, p, place, work, text, map, z)
}
