// Which step a token asks for that is neither copied nor skipped and no conditional word.
#![tactic(auto)]

ghost use Rattle.std.specs.Prelude.{List, ℕ};
ghost use Rattle.turns.specs.Acts.{taken_act, act_at};
ghost use Rattle.reading.specs.Reading.{Halts};
ghost use Rattle.steps.specs.Standing.{bufs, At, Performs};
ghost use Rattle.dispatch.specs.Going.{Works, GoingIn};

use lex::{END, Token};
use names::{DEFINE, END_KEYWORDS, INCLUDE, RESETALL, UNDEF, UNDEFINE_ALL};
use steps::defining::{define, hide, undef, undef_all};
use steps::entering::{end_file, enter};
use steps::putting::{keep_on, usage, write_place_word};
use steps::stage::{Stage, Step, behind};

// A grave accent name in taken text that is no conditional word; `d`: the directive, 0 if there is none.
fn take<'a>(
    d: usize,
    files: &[u8],
    table: &[[u32; 5]],
    s: &'a [u8],
    t: Token,
    set: usize,
    limit: usize,
    bytes: &'a mut [u8],
    records: &mut [[u32; 4]],
    frames: &mut [[usize; 3]],
    name: &mut [u8],
    form: &mut [u8],
    list: &mut [[u64; 9]],
    out: &mut [[u64; 9]],
    ranges: &mut [[usize; 4]],
    stack: &mut [u8],
    work: &mut [u8],
    quoted: &mut [u8],
    decimal: &mut [u8],
    text: &mut [u8],
    map: &mut [u32],
    z: Stage,
) -> Step
    requires { GoingIn files.now table.now text.old map.old bytes.old records.old frames.old z × At files.now table.now s.now t z × Works list.old out.old ranges.old stack.old work.old quoted.old decimal.old name.old form.old }
    ensures { (cd : List (List ℕ)) → Performs result files.now table.now set limit s.now t (bufs text.old map.old bytes.old records.old frames.old cd) (bufs text.new map.new bytes.new records.new frames.new cd) z (λ h. taken_act d h) }
{
    if d == 0 {
        return usage(
            files, table, s, t, limit, bytes, records, list, out, ranges, stack, work, quoted,
            decimal, text, map, z,
        );
    }
    if d == DEFINE {
        return define(s, t, bytes, records, name, work, form, z);
    }
    if d == UNDEF {
        return undef(s, t, bytes, records, z);
    }
    if d == UNDEFINE_ALL {
        return undef_all(s, t, bytes, records, z);
    }
    if d == INCLUDE {
        return enter(files, table, s, t, frames, z);
    }
    if (RESETALL <= d) & (d <= END_KEYWORDS) {
        return keep_on(d, s, t, set, text, map, z);
    }
    write_place_word(d, files, table, s, t, quoted, decimal, text, map, z)
}

// The token `t` that is neither copied nor skipped and no conditional word.
pub fn special(
    d: usize,
    files: &[u8],
    table: &[[u32; 5]],
    s: &[u8],
    t: Token,
    set: usize,
    limit: usize,
    bytes: &mut [u8],
    records: &mut [[u32; 4]],
    frames: &mut [[usize; 3]],
    name: &mut [u8],
    form: &mut [u8],
    list: &mut [[u64; 9]],
    out: &mut [[u64; 9]],
    ranges: &mut [[usize; 4]],
    stack: &mut [u8],
    work: &mut [u8],
    quoted: &mut [u8],
    decimal: &mut [u8],
    text: &mut [u8],
    map: &mut [u32],
    z: Stage,
) -> Step
    requires { GoingIn files.now table.now text.old map.old bytes.old records.old frames.old z × At files.now table.now s.now t z × Halts s.now z.cursor t d × Works list.old out.old ranges.old stack.old work.old quoted.old decimal.old name.old form.old }
    ensures { (cd : List (List ℕ)) → Performs result files.now table.now set limit s.now t (bufs text.old map.old bytes.old records.old frames.old cd) (bufs text.new map.new bytes.new records.new frames.new cd) z (λ h. act_at h) }
{
    if t.kind == END {
        return end_file(frames, text, map, z);
    }
    let k = z.blocks;
    if k.taken {
        return take(
            d, files, table, s, t, set, limit, bytes, records, frames, name, form, list, out,
            ranges, stack, work, quoted, decimal, text, map, z,
        );
    }
    if d == DEFINE {
        return hide(s, t, name, stack, z);
    }
    Step::On(behind(z, s, t.end))
}
