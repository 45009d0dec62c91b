// One usage replaced: the macro that it names, its list, and the text that takes their place in the pending list.
ghost use Rattle.std.specs.Prelude.{◌≡◌, true, List, [], ℕ, ◌<◌, ◌≤◌, length};
ghost use Rattle.definition.specs.Definitions.{Parameter, Macro};
ghost use Rattle.packed.specs.Records.{Small};
ghost use Rattle.sets.specs.Sets.{insert_asc, members};
ghost use Rattle.store.specs.Stores.{find as findName};
ghost use Rattle.store.specs.Buffers.{Holds, Stored as StoredIn};
ghost use Rattle.pending.specs.Pending.{Pending, is_call, view};
ghost use Rattle.pending.specs.References.{pending_by, stacked};
ghost use Rattle.pending.specs.Sources.{items_from, last_of};
ghost use Rattle.arguments.specs.Ranges.{Ranged, Listable};
ghost use Rattle.replace.specs.Tidying.{tidy_all};
ghost use Rattle.replace.specs.Replacing.{list_for, text_with, replace};
ghost use Rattle.replace.specs.Placing.{MacroIn, UsageIn};
ghost use Rattle.expand.specs.Standing.{Lends, CalledBy, AcceptedBy, PutsIn, replaced_to, PutBy, ReplacedBy};

use crate::{Stand, Turn};
use arguments::seek_list;
use lex::{Fault, GRAVE};
use names::directive_of;
use packed::{Record, read};
use pending::{Pend, name_of};
use replace::{is_enough, larger, push_text, stack_on};
use sets::MacroSet;
use store::find;
use text::peek;

// The macro that a usage of `w` with the set names, by its number: 13, 16.
pub(crate) fn resolve(
    b: &[u8],
    records: &[[u32; 4]],
    macros: usize,
    w: &[u8],
    set: MacroSet,
) -> Result<usize, usize>
    requires { (macros ≤ 256) × StoredIn b.now records.now macros }
    ensures { (ms : List Macro) → Holds ms b.now records.now macros → CalledBy result (findName w.now ms) ms (members set) macros }
{
    let f = find(b, records, macros, w);
    match f {
        Ok(i) => {
            if sets::member(set, i as u64) {
                return Err(16);
            }
            Ok(i)
        }
        Err(_) => Err(13),
    }
}

// The list of a usage of the macro `q`, if it has formals: how many arguments it has, and where it ends; 14, 15.
pub fn accept<'a>(
    s: &'a [u8],
    b: &'a [u8],
    q: Record,
    list: &[[u64; 9]],
    n: usize,
    file: bool,
    at: usize,
    ranges: &mut [[usize; 4]],
    stack: &mut [u8],
) -> Result<(usize, usize), Fault>
    requires { (length b.now ≤ 65536) × Small q × Listable s.now list.now n (last_of s.now n file) at stack.old }
    ensures { (fs : List Parameter) (t : List ℕ) → MacroIn b.now q fs t → AcceptedBy result (list_for fs (items_from s.now b.now list.now n file at)) (items_from s.now b.now list.now n file) (last_of s.now n file) ranges.new }
{
    let c = q.start + q.name;
    let count = peek(b, c) as usize;
    if count == 0 {
        return Ok((0, at));
    }
    let (given, e) = seek_list(s, b, list, n, file, at, ranges, stack)?;
    if is_enough(b, c + 1, count, given) {
        return Ok((given, e));
    }
    Err(Fault {
        number: 15,
        place: 0,
    })
}

pub fn is_usage<'a>(s: &'a [u8], b: &'a [u8], p: Pend) -> bool
    ensures { result ≡ is_call (view (pending_by s.now b.now p)) }
{
    if p.kind != GRAVE {
        return false;
    }
    directive_of(name_of(s, b, p)) == 0
}

// The stand with `n` pending tokens after a replacement, whose sets have at most `d` members.
fn replaced_to(z: Stand, n: usize, d: usize) -> Stand
    requires { z.count < 18446744073709551615 }
    ensures { result ≡ replaced_to z n d }
{
    let p = z.spot;
    Stand {
        depth: n,
        count: z.count + 1,
        deepest: larger(z.deepest, d),
        spot: p,
    }
}

// Puts the text of macro `i` on the first `base` pending tokens: 18, 17.
fn put_in<'a>(
    s: &'a [u8],
    b: &'a [u8],
    q: Record,
    i: usize,
    list: &mut [[u64; 9]],
    n: usize,
    file: bool,
    base: usize,
    ranges: &mut [[usize; 4]],
    given: usize,
    set: MacroSet,
    limit: usize,
    out: &mut [[u64; 9]],
    z: Stand,
) -> Turn
    requires { PutsIn b.now q i list.old n base ranges.old out.old × UsageIn b.now q (items_from s.now b.now list.old n file) (last_of s.now n file) ranges.old given }
    ensures { (fs : List Parameter) (t : List ℕ) (xs : List (List Pending)) → MacroIn b.now q fs t → given ≡ length xs → Ranged (items_from s.now b.now list.old n file) (last_of s.now n file) ranges.old xs → PutBy result s.now b.now list.new (text_with (insert_asc i (members set)) fs (tidy_all xs) t) (stacked s.now b.now list.old base) limit z }
{
    if limit <= z.count {
        return Turn::Ended(18, 0);
    }
    let with = sets::insert(set, i as u64);
    let r = push_text(
        s,
        b,
        q,
        list,
        n,
        file,
        ranges,
        given,
        with,
        out,
        1024 - base,
    );
    match r {
        Some(m) => {
            let d = stack_on(list, base, out, m);
            Turn::On(replaced_to(z, base + m, d))
        }
        None => Turn::Ended(17, 0),
    }
}

// Puts the text of macro `i`, for a usage in the file, on an empty pending list: 18, 17.
pub(crate) fn put_first<'a>(
    s: &'a [u8],
    b: &'a [u8],
    q: Record,
    i: usize,
    list: &mut [[u64; 9]],
    ranges: &mut [[usize; 4]],
    given: usize,
    limit: usize,
    out: &mut [[u64; 9]],
    z: Stand,
) -> Turn
    requires { PutsIn b.now q i list.old 0 0 ranges.old out.old × UsageIn b.now q (items_from s.now b.now list.old 0 true) (length s.now) ranges.old given }
    ensures { (fs : List Parameter) (t : List ℕ) (xs : List (List Pending)) → MacroIn b.now q fs t → given ≡ length xs → Ranged (items_from s.now b.now list.old 0 true) (length s.now) ranges.old xs → PutBy result s.now b.now list.new (text_with (insert_asc i []) fs (tidy_all xs) t) [] limit z }
{
    put_in(
        s,
        b,
        q,
        i,
        list,
        0,
        true,
        0,
        ranges,
        given,
        sets::empty(),
        limit,
        out,
        z,
    )
}

// Replaces the usage of `w` with the set, behind which `n` tokens are pending.
pub(crate) fn replace_top<'a>(
    s: &'a [u8],
    b: &'a [u8],
    records: &[[u32; 4]],
    macros: usize,
    w: &[u8],
    set: MacroSet,
    limit: usize,
    list: &mut [[u64; 9]],
    n: usize,
    out: &mut [[u64; 9]],
    ranges: &mut [[usize; 4]],
    stack: &mut [u8],
    z: Stand,
) -> Turn
    requires { (n < 1024) × Lends s.now b.now records.now macros list.old out.old ranges.old stack.old }
    ensures { (ms : List Macro) → Holds ms b.now records.now macros → ReplacedBy result s.now b.now list.new (replace ms w.now (members set) (stacked s.now b.now list.old n)) ms limit z }
{
    let c = resolve(b, records, macros, w, set);
    match c {
        Err(k) => Turn::Ended(k, 0),
        Ok(i) => {
            let q = read(records, i);
            let f = accept(s, b, q, list, n, false, 0, ranges, stack);
            match f {
                Ok((given, e)) => {
                    put_in(
                        s,
                        b,
                        q,
                        i,
                        list,
                        n,
                        false,
                        n - e,
                        ranges,
                        given,
                        set,
                        limit,
                        out,
                        z,
                    )
                }
                Err(f) => Turn::Ended(f.number, f.place),
            }
        }
    }
}
