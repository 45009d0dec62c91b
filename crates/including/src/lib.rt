// Includes (document 01, "Directives"): which entry is included and where the directive ends, or 7, 9, 10, or 2 to 6 of the line.
#![tactic(auto)]

ghost use Rattle.std.specs.Prelude.{◌≡◌, ◌&&◌, ◌||◌, ◌<◌, eqb, get_or};
ghost use Rattle.text.specs.Bytes.{part};
ghost use Rattle.directive.specs.Include.{include_at};
ghost use Rattle.turns.specs.States.{Here};
ghost use Rattle.turns.specs.Acts.{enter_act, include_act};
ghost use Rattle.turns.specs.Asking.{EndsIn};
ghost use Rattle.including.specs.Including.{IncludeHere, EnteredBy};

use directive::{FileName, IncludeLine, include_at};
use handover::entry_of;
use lex::{Fault, Token};
use text::{part_of, peek};

// Whether no file of that form and name may be included here: other text on the line, or a `/` name in angle brackets.
fn is_barred(other: bool, l: IncludeLine, form: u32, w: &[u8]) -> bool
    ensures { result ≡ (other || (l.other || (eqb form 1 && eqb (get_or w.now 0 0) 47))) }
{
    other | (l.other | ((form == 1) & (peek(w, 0) == 47)))
}

// Includes the file of that form whose name stands there: 9, 10.
fn enter(
    store: &[u8],
    table: &[[u32; 5]],
    s: &[u8],
    t: Token,
    other: bool,
    depth: usize,
    l: IncludeLine,
    form: u32,
    from: usize,
    end: usize,
) -> Result<(usize, usize), Fault>
    requires { 0 < depth }
    ensures { (h : Here) → IncludeHere h store.now table.now s.now t other depth → EndsIn h l.end → EnteredBy result h (enter_act h l form (part s.now from end)) table.now depth }
{
    let w = part_of(s, from, end);
    if is_barred(other, l, form, w) {
        return Err(Fault {
            number: 9,
            place: t.at,
        });
    }
    let i = entry_of(store, table, form, w);
    if table.len() <= i {
        return Err(Fault {
            number: 9,
            place: t.at,
        });
    }
    if 16 <= depth {
        return Err(Fault {
            number: 10,
            place: t.at,
        });
    }
    Ok((i, l.end))
}

// The include whose word is `t` of the file `s`, the innermost of `depth` open ones.
pub fn include(
    store: &[u8],
    table: &[[u32; 5]],
    s: &[u8],
    t: Token,
    other: bool,
    depth: usize,
) -> Result<(usize, usize), Fault>
    requires { 0 < depth }
    ensures { (h : Here) → IncludeHere h store.now table.now s.now t other depth → EnteredBy result h (include_act h (include_at s.now t.end)) table.now depth }
{
    let l = include_at(s, t.end);
    let b = l.bars;
    if b.number != 0 {
        return Err(b);
    }
    let f = l.file;
    match f {
        FileName::Unnamed => Err(Fault {
            number: 7,
            place: t.at,
        }),
        FileName::Quoted(a, e) => enter(store, table, s, t, other, depth, l, 0, a, e),
        FileName::Angled(a, e) => enter(store, table, s, t, other, depth, l, 1, a, e),
    }
}
