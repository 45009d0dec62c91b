// Writing (document 01, "Map"): the bytes of a token and its map entries, whole, or refusal 19 or 20 and nothing.
#![tactic(auto)]

ghost use Rattle.std.specs.Prelude.{◌≡◌, [], ◌∷◌, cond, eqb, ◌+◌, ◌*◌, ◌<◌, ◌≤◌, length};
ghost use Rattle.writing.specs.Written.{put, placed};
ghost use Rattle.writing.specs.Buffers.{line_count, Writable, Puts, WroteBy};

// Where writing stands: the bytes and the map entries written, and whether the next byte begins a line.
#[derive(Clone, Copy)]
pub struct Spot {
    pub written: usize,
    pub lines: usize,
    pub fresh: bool,
}

// What was written, or the refusal: 19 or 20.
#[derive(Clone, Copy)]
pub enum Wrote {
    Upto(Spot),
    Full(usize),
}

// How many map entries the bytes `w` take.
fn count_lines(w: &[u8], fresh: bool) -> usize
    ensures { result ≡ line_count fresh w.now }
{
    let mut n = 0;
    let mut f = fresh;
    for &b in w {
        if f {
            n += 1;
        }
        f = b == 10;
    }
    n
}

// Writes one byte, with a map entry if it begins a line.
fn write_byte(b: u8, place: u32, text: &mut [u8], map: &mut [u32], z: Spot) -> Spot
    requires { (z.written < length text.old) × (line_count z.fresh (b ∷ []) + z.lines ≤ length map.old) }
    ensures { Puts (put b place ∷ []) text.old text.new map.old map.new z result }
{
    let n = z.written;
    text[n] = b;
    let l = z.lines;
    if z.fresh {
        map[l] = place;
        return Spot {
            written: n + 1,
            lines: l + 1,
            fresh: b == 10,
        };
    }
    Spot {
        written: n + 1,
        lines: l,
        fresh: b == 10,
    }
}

// The place behind the byte `b`.
fn place_after(b: u8, place: u32, step: u32) -> u32
    requires { place + step < 4294967296 }
    ensures { result ≡ cond (eqb b 10) (place + step) place }
{
    if b == 10 { place + step } else { place }
}

// Writes bytes that have room.
fn write_bytes(w: &[u8], place: u32, step: u32, text: &mut [u8], map: &mut [u32], z: Spot) -> Spot
    requires { Writable w.now place step text.old map.old z × (z.written + length w.now ≤ length text.old) × (z.lines + line_count z.fresh w.now ≤ length map.old) }
    ensures { Puts (placed step place w.now) text.old text.new map.old map.new z result }
{
    let mut p = place;
    let mut y = z;
    for &b in w {
        y = write_byte(b, p, text, map, y);
        p = place_after(b, p, step);
    }
    y
}

// Writes `w` whole, from the place `place` on, which each newline moves by `step`.
pub fn write_whole(
    w: &[u8],
    place: u32,
    step: u32,
    text: &mut [u8],
    map: &mut [u32],
    z: Spot,
) -> Wrote
    requires { Writable w.now place step text.old map.old z }
    ensures { WroteBy result (placed step place w.now) text.old text.new map.old map.new z }
{
    if text.len() - z.written < w.len() {
        return Wrote::Full(19);
    }
    if map.len() - z.lines < count_lines(w, z.fresh) {
        return Wrote::Full(20);
    }
    Wrote::Upto(write_bytes(w, place, step, text, map, z))
}
