// Conditional words (document 01, "Directives"): which blocks are open, and whether text is taken, behind one, and where it
// ends; or it is refused.
#![tactic(auto)]

ghost use Rattle.std.specs.Prelude.{◌≡◌, false, eqb};
ghost use Rattle.names.specs.Names.{Else, Endif};
ghost use Rattle.store.specs.Buffers.{Stored};
ghost use Rattle.blocks.specs.Stacks.{BlocksIn};
ghost use Rattle.turns.specs.States.{Here};
ghost use Rattle.turns.specs.Acts.{conditional_act};
ghost use Rattle.choosing.specs.Choosing.{choice_by, Word, ChosenBy};

use blocks::{Blocks, close_block, next_block, open_block};
use conditions::condition_at;
use lex::{Fault, Token};
use names::{ELSE, ELSIF, ENDIF, IFDEF};

// The change of blocks by a word at `at` that ends at `e`, or 8.
fn chosen_by(r: Option<Blocks>, e: usize, at: usize) -> Result<(Blocks, usize), Fault>
    ensures { result ≡ choice_by r e at }
{
    match r {
        Some(k) => Ok((k, e)),
        None => Err(Fault {
            number: 8,
            place: at,
        }),
    }
}

// `ifdef`, `ifndef` and `elsif`.
fn choose_by_condition(
    d: usize,
    s: &[u8],
    t: Token,
    file: usize,
    conds: &mut [[usize; 6]],
    bytes: &[u8],
    records: &[[u32; 4]],
    macros: usize,
    k: Blocks,
) -> Result<(Blocks, usize), Fault>
    requires { BlocksIn conds.old k × Stored bytes.now records.now macros × (eqb d Else ≡ false) × (eqb d Endif ≡ false) }
    ensures { (h : Here) → Word h s.now t file conds.old k bytes.now records.now macros → ChosenBy result (conditional_act d h) conds.old conds.new }
{
    let (is, e) = condition_at(s, t, bytes, records, macros)?;
    if d == ELSIF {
        return chosen_by(next_block(conds, k, is, false), e, t.at);
    }
    if d == IFDEF {
        return chosen_by(open_block(conds, k, file, t.at, is), e, t.at);
    }
    chosen_by(open_block(conds, k, file, t.at, !is), e, t.at)
}

// A conditional word `t` of the file, in taken and in ignored text.
pub fn choose(
    d: usize,
    s: &[u8],
    t: Token,
    file: usize,
    conds: &mut [[usize; 6]],
    bytes: &[u8],
    records: &[[u32; 4]],
    macros: usize,
    k: Blocks,
) -> Result<(Blocks, usize), Fault>
    requires { BlocksIn conds.old k × Stored bytes.now records.now macros }
    ensures { (h : Here) → Word h s.now t file conds.old k bytes.now records.now macros → ChosenBy result (conditional_act d h) conds.old conds.new }
{
    if d == ENDIF {
        return chosen_by(close_block(conds, k), t.end, t.at);
    }
    if d == ELSE {
        return chosen_by(next_block(conds, k, true, true), t.end, t.at);
    }
    choose_by_condition(d, s, t, file, conds, bytes, records, macros, k)
}
