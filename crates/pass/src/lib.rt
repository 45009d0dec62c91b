// Pass (document 01; demand 3): whether every usage in the macros' texts is good and no macro reaches itself.
#![tactic(auto)]

ghost use Rattle.std.specs.Prelude.{◌≡◌, false, cond, List, ◌∷◌, ℕ, ◌<◌, ◌≤◌, length, drop};
ghost use Rattle.std.proofs.Math.Option.{none, some};
ghost use Rattle.definition.specs.Definitions.{Macro};
ghost use Rattle.sets.specs.Sets.{elem, members};
ghost use Rattle.store.specs.Buffers.{Holds};
ghost use Rattle.pending.specs.Pending.{Pending, view};
ghost use Rattle.pending.specs.References.{pend_of, pending_by, stacked};
ghost use Rattle.pending.specs.Sources.{items_from, last_of};
ghost use Rattle.arguments.specs.Ranges.{Listable};
ghost use Rattle.packed.specs.Records.{Small};
ghost use Rattle.reach.specs.Reaching.{has_bit};
ghost use Rattle.passing.specs.Passing.{or_next, usage_fault, fault_of, text_fault, uses_of, uses_in, text_at, uses, reaches, pass_of};
ghost use Rattle.pass.specs.Answer.{answer_of, Passes};
ghost use Rattle.pass.specs.Judging.{verdict_of, Unfolds, Kept, Works};

use expand::usages::{accept, is_usage};
use genuine::check_store;
use lex::{in_text, marks_after, token_at};
use packed::{Record, read};
use pending::{name_of, numbers_of, pend_of};
use reach::{close_rows, row_of, set_of};
use replace::stored_ref;
use sets::MacroSet;
use store::find;
use text::part_of;

// Yes; or the first macro at fault, by its number, and its refusal; or a store that no definitions leave (1).
#[derive(Clone, Copy)]
pub enum Answer {
    Yes,
    Fault(usize, usize),
    Foreign,
}

// Puts the tokens of a macro's text at the end of `list`, the first one last; how many they are.
fn unfold_text(b: &[u8], q: Record, list: &mut [[u64; 9]]) -> usize
    requires { (length b.now ≤ length list.old) × (length b.now ≤ 65536) × Small q }
    ensures { Unfolds b.now q list.old list.new result }
{
    let w = part_of(b, q.text, q.text + q.size);
    let mut i = 0;
    let mut k = 0;
    let mut marks = false;
    while i < w.len() {
        let t = token_at(w, i, in_text(marks));
        k += 1;
        list[list.len() - k] = numbers_of(stored_ref(q.text, t, sets::empty()));
        marks = marks_after(marks, t);
        i = t.end;
    }
    k
}

// The fault of the usage of `w`, whose list is sought from token `at` on: 13, 14, 15.
fn usage_fault(
    b: &[u8],
    records: &[[u32; 4]],
    macros: usize,
    w: &[u8],
    list: &[[u64; 9]],
    n: usize,
    at: usize,
    ranges: &mut [[usize; 4]],
    stack: &mut [u8],
) -> Result<(), usize>
    requires { Kept b.now records.now macros × Listable b.now list.now n (last_of b.now n false) at stack.old }
    ensures { (ms : List Macro) → Holds ms b.now records.now macros → result ≡ verdict_of (usage_fault ms w.now (items_from b.now b.now list.now n false at)) }
{
    let f = find(b, records, macros, w);
    match f {
        Ok(i) => {
            let r = accept(b, b, read(records, i), list, n, false, at, ranges, stack);
            match r {
                Ok(_) => Ok(()),
                Err(f) => Err(f.number),
            }
        }
        Err(_) => Err(13),
    }
}

// The fault of token `k` of the text whose tokens are the first `n` of `list`.
fn token_fault(
    b: &[u8],
    records: &[[u32; 4]],
    macros: usize,
    list: &[[u64; 9]],
    n: usize,
    k: usize,
    ranges: &mut [[usize; 4]],
    stack: &mut [u8],
) -> Result<(), usize>
    requires { Kept b.now records.now macros × Listable b.now list.now n (last_of b.now n false) k stack.old × (k < n) }
    ensures { (ms : List Macro) (p : Pending) (ps : List Pending) → Holds ms b.now records.now macros → drop k (stacked b.now b.now list.now n) ≡ p ∷ ps → result ≡ verdict_of (fault_of (view p) ms ps) }
{
    let p = pend_of(list[n - 1 - k]);
    if is_usage(b, b, p) {
        let w = name_of(b, b, p);
        return usage_fault(b, records, macros, w, list, n, k + 1, ranges, stack);
    }
    Ok(())
}

// The first bad usage of a text.
fn text_fault(
    b: &[u8],
    records: &[[u32; 4]],
    macros: usize,
    list: &[[u64; 9]],
    n: usize,
    ranges: &mut [[usize; 4]],
    stack: &mut [u8],
) -> Result<(), usize>
    requires { Kept b.now records.now macros × Listable b.now list.now n (last_of b.now n false) 0 stack.old }
    ensures { (ms : List Macro) → Holds ms b.now records.now macros → result ≡ verdict_of (text_fault ms (stacked b.now b.now list.now n)) }
{
    for k in 0..n {
        token_fault(b, records, macros, list, n, k, ranges, stack)?;
    }
    Ok(())
}

// The macros `uses`, and the one that the token names if it is a usage.
fn with_use(b: &[u8], records: &[[u32; 4]], macros: usize, v: [u64; 9], uses: MacroSet) -> MacroSet
    requires { Kept b.now records.now macros }
    ensures { (ms : List Macro) (j : ℕ) → Holds ms b.now records.now macros → elem j (members result) ≡ elem j (uses_of (view (pending_by b.now b.now (pend_of v))) ms (members uses)) }
{
    let p = pend_of(v);
    if is_usage(b, b, p) {
        let f = find(b, records, macros, name_of(b, b, p));
        match f {
            Ok(i) => {
                return sets::insert(uses, i as u64);
            }
            Err(_) => {
                return uses;
            }
        }
    }
    uses
}

// The macros that the usages of a text name.
fn uses_in(b: &[u8], records: &[[u32; 4]], macros: usize, list: &[[u64; 9]], n: usize) -> MacroSet
    requires { Kept b.now records.now macros × (n ≤ length list.now) }
    ensures { (ms : List Macro) (j : ℕ) → Holds ms b.now records.now macros → elem j (members result) ≡ elem j (uses_in ms (stacked b.now b.now list.now n)) }
{
    let mut uses = sets::empty();
    for &v in &list[..n] {
        uses = with_use(b, records, macros, v, uses);
    }
    uses
}

// The macros that macro `i` uses.
fn uses_of(
    b: &[u8],
    records: &[[u32; 4]],
    macros: usize,
    i: usize,
    list: &mut [[u64; 9]],
) -> MacroSet
    requires { Kept b.now records.now macros × (i < macros) × (65536 ≤ length list.old) }
    ensures { (ms : List Macro) (j : ℕ) → Holds ms b.now records.now macros → elem j (members result) ≡ elem j (uses ms i) }
{
    let n = unfold_text(b, read(records, i), list);
    let a = list.len() - n;
    uses_in(b, records, macros, &list[a..], n)
}

// What each macro uses, as rows.
fn fill_rows(
    b: &[u8],
    records: &[[u32; 4]],
    macros: usize,
    list: &mut [[u64; 9]],
    rows: &mut [[u64; 4]],
)
    requires { Kept b.now records.now macros × (65536 ≤ length list.old) × (256 ≤ length rows.old) }
    ensures { (ms : List Macro) (i j : ℕ) → Holds ms b.now records.now macros → i < macros → has_bit rows.new i j ≡ elem j (uses ms i) }
{
    for i in 0..macros {
        rows[i] = row_of(uses_of(b, records, macros, i, list));
    }
}

// Macro `i`: its first bad usage, else 16 if it reaches itself.
fn macro_fault(
    b: &[u8],
    records: &[[u32; 4]],
    macros: usize,
    i: usize,
    list: &mut [[u64; 9]],
    ranges: &mut [[usize; 4]],
    stack: &mut [u8],
    rows: &[[u64; 4]],
) -> Result<(), usize>
    requires { Kept b.now records.now macros × (i < macros) × Works list.old ranges.old stack.old × (256 ≤ length rows.now) }
    ensures { (ms : List Macro) → Holds ms b.now records.now macros → result ≡ verdict_of (or_next (text_fault ms (text_at ms i)) (cond (has_bit rows.now i i) (some 16) none)) }
{
    let n = unfold_text(b, read(records, i), list);
    let a = list.len() - n;
    text_fault(b, records, macros, &list[a..], n, ranges, stack)?;
    if sets::member(set_of(rows[i]), i as u64) {
        return Err(16);
    }
    Ok(())
}

// The first macro at fault.
fn first_fault(
    b: &[u8],
    records: &[[u32; 4]],
    macros: usize,
    list: &mut [[u64; 9]],
    ranges: &mut [[usize; 4]],
    stack: &mut [u8],
    rows: &[[u64; 4]],
) -> Answer
    requires { Kept b.now records.now macros × Works list.old ranges.old stack.old × (256 ≤ length rows.now) }
    ensures { (ms : List Macro) → Holds ms b.now records.now macros → ((i : ℕ) → i < macros → has_bit rows.now i i ≡ reaches ms (length ms) i i) → result ≡ answer_of (pass_of ms) }
{
    for i in 0..macros {
        if let Err(e) = macro_fault(b, records, macros, i, list, ranges, stack, rows) {
            return Answer::Fault(i, e);
        }
    }
    Answer::Yes
}

// Passes the macros of a store.
fn pass_stored(b: &[u8], records: &[[u32; 4]], macros: usize) -> Answer
    requires { Kept b.now records.now macros }
    ensures { (ms : List Macro) → Holds ms b.now records.now macros → result ≡ answer_of (pass_of ms) }
{
    let mut list = [[0u64; 9]; 65536];
    let mut ranges = [[0usize; 4]; 256];
    let mut stack = [0u8; 16384];
    let mut rows = [[0u64; 4]; 256];
    fill_rows(b, records, macros, &mut list, &mut rows);
    close_rows(&mut rows, macros);
    first_fault(
        b,
        records,
        macros,
        &mut list,
        &mut ranges,
        &mut stack,
        &rows,
    )
}

// Pass: whether the macros of a store pass.
pub fn pass(bytes: &[u8], records: &[[u32; 4]]) -> Answer
    ensures { Passes bytes.now records.now result }
{
    let c = check_store(records, bytes);
    match c {
        Some(n) => pass_stored(bytes, records, n),
        None => Answer::Foreign,
    }
}
