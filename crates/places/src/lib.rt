// Lines, places and what the two `__` words write (document 01, "Map" and "Directives").
#![tactic(auto)]

ghost use Rattle.std.specs.Prelude.{◌≡◌, ◌+◌, ◌<◌, ◌≤◌, length, take};
ghost use Rattle.places.specs.Places.{newlines, line_at, place_of, quoted, decimal};

use text::part_of;

// How many newlines are among the bytes. A `for`: with `filter` and `count` a long comment took a quarter more instructions.
pub fn newlines_in(w: &[u8]) -> usize
    ensures { (result ≡ newlines w.now) × (result ≤ length w.now) }
{
    let mut n = 0;
    for &b in w {
        if b == 10 {
            n += 1;
        }
    }
    n
}

// The line of the byte at `at`.
pub fn line_at(s: &[u8], at: usize) -> usize
    ensures { result ≡ line_at s.now at }
{
    1 + newlines_in(part_of(s, 0, at))
}

// A place as the map has it.
pub fn place_of(file: usize, line: usize) -> u32
    requires { (file ≤ 64) × (line ≤ 131072) }
    ensures { result ≡ place_of file line }
{
    (file * 131072 + line) as u32
}

// A name with quotes, at the front of `out`; its length.
pub fn quote(w: &[u8], out: &mut [u8]) -> usize
    requires { length w.now + 2 ≤ length out.old }
    ensures { (take result out.new ≡ quoted w.now) × (result ≡ length w.now + 2) }
{
    let n = w.len();
    out[0] = 34;
    out[1..n + 1].copy_from_slice(w);
    out[n + 1] = 34;
    n + 2
}

// The last `k` digits of a number, without zeros before, at the front of `out`; how many.
pub fn write_digits(n: usize, k: usize, out: &mut [u8]) -> usize
    requires { k ≤ length out.old }
    ensures { (take result out.new ≡ decimal k n) × (result ≤ k) }
{
    if k == 0 {
        return 0;
    }
    if n < 10 {
        out[0] = (48 + n) as u8;
        return 1;
    }
    let m = write_digits(n / 10, k - 1, out);
    out[m] = (48 + n % 10) as u8;
    m + 1
}
