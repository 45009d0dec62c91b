// One replacement (document 01, "Replacing"): a macro's text with the arguments in place, as references on the pending list.
#![tactic(auto)]

ghost use Rattle.std.specs.Prelude.{◌≡◌, Bool, ◌&&◌, List, [], ◌∷◌, ℕ, max, ◌+◌, ◌-◌, ◌<◌, ◌≤◌, length, take, drop, get_or};
ghost use Rattle.std.proofs.Math.Option.{Option};
ghost use Rattle.text.specs.Bytes.{part};
ghost use Rattle.lex.specs.Tokens.{in_file, tokens};
ghost use Rattle.definition.specs.Definitions.{Parameter, parameter};
ghost use Rattle.packed.specs.Records.{Small};
ghost use Rattle.sets.specs.Sets.{members};
ghost use Rattle.pending.specs.Pending.{Pending, text_token, text_tokens};
ghost use Rattle.pending.specs.References.{pend_of, pendings};
ghost use Rattle.pending.specs.Sources.{items_from, last_of, item_of, Spans};
ghost use Rattle.pending.specs.Adding.{Takes, AddsBy};
ghost use Rattle.arguments.specs.Ranges.{Ranged};
ghost use Rattle.replace.specs.Tidying.{is_backslash, before_newline, cleaned_all, drop_left, tidy, tidy_all, Trims};
ghost use Rattle.replace.specs.Replacing.{enough, fallback, or_else, image_in, text_with};
ghost use Rattle.replace.specs.Placing.{FormalsAt, MacroIn, UsageIn, WhichIs, Stacks, stored_ref, PlacedBefore, Ready, ReadyBy, Images};

use genuine::{formal_end, formal_name, mark_at};
use lex::{BYTE, ESCAPED, NAME, NEWLINE, Token, in_file, in_text, marks_after, token_at};
use packed::Record;
use pending::{Item, Pend, STORE, clean, first_byte, is_blank, is_spacing, item_at, pend_of, push};
use sets::MacroSet;
use text::{part_of, peek, same};

// Whether the token is a `\` just before a newline, both before `to`.
fn is_break<'a>(
    s: &'a [u8],
    b: &'a [u8],
    list: &[[u64; 9]],
    n: usize,
    file: bool,
    t: Item,
    to: usize,
) -> bool
    requires { n ≤ length list.now }
    ensures { (ps : List Pending) → Spans (items_from s.now b.now list.now n file) t.next to ps → to ≤ last_of s.now n file → result ≡ (is_backslash (item_of s.now b.now t) && before_newline ps) }
{
    let p = t.pend;
    if p.kind != BYTE {
        return false;
    }
    if first_byte(s, b, p) != 92 {
        return false;
    }
    if to <= t.next {
        return false;
    }
    match item_at(s, list, n, file, t.next) {
        Some(u) => u.pend.kind == NEWLINE,
        None => false,
    }
}

// Where the argument from `from` to before `to` ends without the spacing at its end.
fn argument_end<'a>(
    s: &'a [u8],
    b: &'a [u8],
    list: &[[u64; 9]],
    n: usize,
    file: bool,
    from: usize,
    to: usize,
) -> usize
    requires { n ≤ length list.now }
    ensures { (ps : List Pending) → Spans (items_from s.now b.now list.now n file) from to ps → to ≤ last_of s.now n file → Trims (items_from s.now b.now list.now n file) from to result ps }
{
    let mut i = from;
    let mut e = from;
    while i < to {
        let Some(t) = item_at(s, list, n, file, i) else {
            return e;
        };
        i = t.next;
        let p = t.pend;
        if is_blank(p.kind) {
            continue;
        }
        if is_break(s, b, list, n, file, t, to) {
            continue;
        }
        e = t.next;
    }
    e
}

// Adds the tokens from `from` to before `to`, cleaned, but for the spacing before the first that is none.
fn push_kept<'a>(
    s: &'a [u8],
    b: &'a [u8],
    list: &[[u64; 9]],
    n: usize,
    file: bool,
    from: usize,
    to: usize,
    out: &mut [[u64; 9]],
    most: usize,
    at: usize,
) -> Option<usize>
    requires { (n ≤ length list.now) × Takes out.old most at }
    ensures { (ps : List Pending) → Spans (items_from s.now b.now list.now n file) from to ps → to ≤ last_of s.now n file → AddsBy result s.now b.now out.old out.new most at (drop_left (cleaned_all ps)) }
{
    let mut i = from;
    let mut k = at;
    while i < to {
        let Some(t) = item_at(s, list, n, file, i) else {
            return Some(k);
        };
        i = t.next;
        if is_break(s, b, list, n, file, t, to) {
            continue;
        }
        let p = clean(t.pend);
        if (k == at) & is_spacing(p.kind) {
            continue;
        }
        k = push(out, most, k, p)?;
    }
    Some(k)
}

// Adds the argument from `from` to before `to` as it is put in place.
fn push_argument<'a>(
    s: &'a [u8],
    b: &'a [u8],
    list: &[[u64; 9]],
    n: usize,
    file: bool,
    from: usize,
    to: usize,
    out: &mut [[u64; 9]],
    most: usize,
    at: usize,
) -> Option<usize>
    requires { (n ≤ length list.now) × Takes out.old most at }
    ensures { (ps : List Pending) → Spans (items_from s.now b.now list.now n file) from to ps → to ≤ last_of s.now n file → AddsBy result s.now b.now out.old out.new most at (tidy ps) }
{
    let e = argument_end(s, b, list, n, file, from, to);
    push_kept(s, b, list, n, file, from, e, out, most, at)
}

// Whether `given` arguments are accepted by the `count` formals from `at` of the macro bytes on.
pub fn is_enough(b: &[u8], at: usize, count: usize, given: usize) -> bool
    requires { (count ≤ 255) × (at ≤ 8589934592) }
    ensures { (fs : List Parameter) → FormalsAt b.now at fs → count ≡ length fs → result ≡ enough fs given }
{
    if count < given {
        return false;
    }
    let mut i = at;
    for k in 0..count {
        if (given <= k) & (peek(b, mark_at(b, i)) == 0) {
            return false;
        }
        i = formal_end(b, i);
    }
    true
}

// A formal by its number, and where its form starts.
#[derive(Clone, Copy)]
pub struct Which {
    pub number: usize,
    pub at: usize,
}

// Which of the `count` formals from `at` on has the name `w`; `count` if none has.
fn formal_of(b: &[u8], at: usize, count: usize, w: &[u8]) -> Which
    requires { (count ≤ 255) × (at ≤ 8589934592) }
    ensures { (result.number ≤ count) × (result.at ≤ 17179869184) × ((fs : List Parameter) → FormalsAt b.now at fs → count ≡ length fs → WhichIs b.now fs w.now result) }
{
    let mut i = at;
    for k in 0..count {
        if same(w, formal_name(b, i)) {
            return Which { number: k, at: i };
        }
        i = formal_end(b, i);
    }
    Which {
        number: count,
        at: i,
    }
}

// The reference of a token of the part of the macro bytes that starts at `base`.
pub fn stored_ref(base: usize, t: Token, set: MacroSet) -> Pend
    requires { (base ≤ 17179869184) × (t.at ≤ 17179869184) × (t.from ≤ 17179869184) × (t.end ≤ 17179869184) }
    ensures { result ≡ stored_ref base t set }
{
    Pend {
        kind: t.kind,
        source: STORE,
        start: base + t.at,
        from: base + t.from,
        end: base + t.end,
        set,
    }
}

// Adds the tokens of the default from `from` to before `to` of the macro bytes.
fn push_default(
    b: &[u8],
    from: usize,
    to: usize,
    set: MacroSet,
    out: &mut [[u64; 9]],
    most: usize,
    n: usize,
) -> Option<usize>
    requires { (length b.now ≤ 65536) × Takes out.old most n }
    ensures { (s : List ℕ) → AddsBy result s b.now out.old out.new most n (text_tokens (part b.now from to) (members set) (tokens in_file (part b.now from to) 0)) }
{
    let w = part_of(b, from, to);
    let mut i = 0;
    let mut k = n;
    while i < w.len() {
        let t = token_at(w, i, in_file());
        k = push(out, most, k, stored_ref(from, t, set))?;
        i = t.end;
    }
    Some(k)
}

// Adds the default of the formal whose form starts at `at`, if it has one.
fn push_fallback(
    b: &[u8],
    at: usize,
    set: MacroSet,
    out: &mut [[u64; 9]],
    most: usize,
    n: usize,
) -> Option<usize>
    requires { (length b.now ≤ 65536) × (at ≤ 17179869184) × Takes out.old most n }
    ensures { (s : List ℕ) (f : List ℕ) (d : Option (List ℕ)) (fs : List Parameter) → FormalsAt b.now at (parameter f d ∷ fs) → AddsBy result s b.now out.old out.new most n (fallback (members set) d) }
{
    let m = mark_at(b, at);
    push_default(b, m + 3, formal_end(b, at), set, out, most, n)
}

// Adds the references from `from` to before `to` of `out` once more.
fn push_again(out: &mut [[u64; 9]], from: usize, to: usize, most: usize, at: usize) -> Option<usize>
    requires { (to ≤ at) × Takes out.old most at }
    ensures { (s b : List ℕ) → AddsBy result s b out.old out.new most at (take (to - from) (drop from (pendings s b (take at out.old)))) }
{
    let mut k = at;
    for i in from..to {
        let p = pend_of(out[i]);
        k = push(out, most, k, p)?;
    }
    Some(k)
}

// Adds argument `k` of the `given`, if it is one of them: read the first time, then copied from where it was put.
fn push_given<'a>(
    s: &'a [u8],
    b: &'a [u8],
    list: &[[u64; 9]],
    n: usize,
    file: bool,
    ranges: &mut [[usize; 4]],
    given: usize,
    k: usize,
    out: &mut [[u64; 9]],
    most: usize,
    at: usize,
) -> Option<usize>
    requires { (n ≤ length list.now) × (k < length ranges.old) × PlacedBefore ranges.old given at × Takes out.old most at }
    ensures { (xs : List (List Pending)) → given ≡ length xs → Ready (items_from s.now b.now list.now n file) (last_of s.now n file) ranges.old xs (pendings s.now b.now (take at out.old)) → AddsBy result s.now b.now out.old out.new most at (get_or (tidy_all xs) k []) × ReadyBy result s.now b.now (items_from s.now b.now list.now n file) (last_of s.now n file) out.new ranges.new xs }
{
    if given <= k {
        return Some(at);
    }
    let v = ranges[k];
    if v[2] <= v[3] {
        return push_again(out, v[2], v[3], most, at);
    }
    let m = push_argument(s, b, list, n, file, v[0], v[1], out, most, at)?;
    ranges[k] = [v[0], v[1], at, m];
    Some(m)
}

// Adds what takes the place of formal `k`, whose form starts at `form`.
fn push_value<'a>(
    s: &'a [u8],
    b: &'a [u8],
    list: &[[u64; 9]],
    n: usize,
    file: bool,
    ranges: &mut [[usize; 4]],
    given: usize,
    k: usize,
    form: usize,
    set: MacroSet,
    out: &mut [[u64; 9]],
    most: usize,
    at: usize,
) -> Option<usize>
    requires { (n ≤ length list.now) × (k < length ranges.old) × PlacedBefore ranges.old given at × (length b.now ≤ 65536) × (form ≤ 17179869184) × Takes out.old most at }
    ensures { (xs : List (List Pending)) (f : List ℕ) (d : Option (List ℕ)) (fs : List Parameter) → FormalsAt b.now form (parameter f d ∷ fs) → given ≡ length xs → Ready (items_from s.now b.now list.now n file) (last_of s.now n file) ranges.old xs (pendings s.now b.now (take at out.old)) → AddsBy result s.now b.now out.old out.new most at (or_else (members set) d (get_or (tidy_all xs) k [])) × ReadyBy result s.now b.now (items_from s.now b.now list.now n file) (last_of s.now n file) out.new ranges.new xs }
{
    let m = push_given(s, b, list, n, file, ranges, given, k, out, most, at)?;
    if m == at {
        return push_fallback(b, form, set, out, most, at);
    }
    Some(m)
}

// Adds what takes the place of the token `t` of the text `w`, which starts at `base` of the macro bytes.
fn push_image<'a>(
    s: &'a [u8],
    b: &'a [u8],
    list: &[[u64; 9]],
    n: usize,
    file: bool,
    ranges: &mut [[usize; 4]],
    given: usize,
    first: usize,
    count: usize,
    base: usize,
    w: &[u8],
    t: Token,
    set: MacroSet,
    out: &mut [[u64; 9]],
    most: usize,
    at: usize,
) -> Option<usize>
    requires { Images list.now n ranges.old given b.now first count base w.now t out.old most at }
    ensures { (xs : List (List Pending)) (fs : List Parameter) → FormalsAt b.now first fs → count ≡ length fs → given ≡ length xs → Ready (items_from s.now b.now list.now n file) (last_of s.now n file) ranges.old xs (pendings s.now b.now (take at out.old)) → AddsBy result s.now b.now out.old out.new most at (image_in (members set) fs (tidy_all xs) (text_token w.now (members set) t)) × ReadyBy result s.now b.now (items_from s.now b.now list.now n file) (last_of s.now n file) out.new ranges.new xs }
{
    if (t.kind == NAME) | (t.kind == ESCAPED) {
        let f = formal_of(b, first, count, part_of(w, t.from, t.end));
        if f.number < count {
            return push_value(
                s, b, list, n, file, ranges, given, f.number, f.at, set, out, most, at,
            );
        }
        return push(out, most, at, stored_ref(base, t, set));
    }
    push(out, most, at, stored_ref(base, t, set))
}

// Adds the text of a macro with the arguments in place, from the first reference on.
pub fn push_text<'a>(
    s: &'a [u8],
    b: &'a [u8],
    q: Record,
    list: &[[u64; 9]],
    n: usize,
    file: bool,
    ranges: &mut [[usize; 4]],
    given: usize,
    set: MacroSet,
    out: &mut [[u64; 9]],
    most: usize,
) -> Option<usize>
    requires { (n ≤ length list.now) × (256 ≤ length ranges.old) × (length b.now ≤ 65536) × Small q × (most ≤ length out.old) × UsageIn b.now q (items_from s.now b.now list.now n file) (last_of s.now n file) ranges.old given }
    ensures { (fs : List Parameter) (t : List ℕ) (xs : List (List Pending)) → MacroIn b.now q fs t → given ≡ length xs → Ranged (items_from s.now b.now list.now n file) (last_of s.now n file) ranges.old xs → AddsBy result s.now b.now out.old out.new most 0 (text_with (members set) fs (tidy_all xs) t) }
{
    let w = part_of(b, q.text, q.text + q.size);
    let c = q.start + q.name;
    let count = peek(b, c) as usize;
    let mut i = 0;
    let mut k = 0;
    let mut marks = false;
    while i < w.len() {
        let t = token_at(w, i, in_text(marks));
        k = push_image(
            s,
            b,
            list,
            n,
            file,
            ranges,
            given,
            c + 1,
            count,
            q.text,
            w,
            t,
            set,
            out,
            most,
            k,
        )?;
        marks = marks_after(marks, t);
        i = t.end;
    }
    Some(k)
}

pub fn larger(a: usize, b: usize) -> usize
    ensures { result ≡ max a b }
{
    a.max(b)
}

fn size_of(v: [u64; 9]) -> usize
    ensures { result ≡ length (members (pend_of v).set) }
{
    let p = pend_of(v);
    sets::size(p.set) as usize
}

// Puts the first `m` references of `out` on the first `n` of the pending list, the first token last; the largest of their sets.
pub fn stack_on(list: &mut [[u64; 9]], n: usize, out: &[[u64; 9]], m: usize) -> usize
    requires { (n + m ≤ length list.old) × (m ≤ length out.now) }
    ensures { (s b : List ℕ) → Stacks s b list.old list.new n out.now m result }
{
    let mut d = 0;
    for i in 0..m {
        let v = out[m - 1 - i];
        list[n + i] = v;
        d = larger(size_of(v), d);
    }
    d
}
