// Macros defined and undefined, and definitions in ignored text.
ghost use Rattle.std.specs.Prelude.{◌≡◌, List, [], ℕ, ◌≤◌, length};
ghost use Rattle.directive.specs.Forms.{undef_at};
ghost use Rattle.definition.specs.Definitions.{definition_at};
ghost use Rattle.store.specs.Buffers.{Stored};
ghost use Rattle.macros.specs.Defining.{Ready};
ghost use Rattle.copying.specs.Copying.{Reads};
ghost use Rattle.turns.specs.Acts.{undefines, define_act, hide_act, undef_act};
ghost use Rattle.steps.specs.Hiding.{hidden_by};
ghost use Rattle.steps.specs.Standing.{MacrosBy};

use crate::stage::{Stage, Step, behind, refuse};
use definition::{Judged, judge_definition};
use directive::{MacroName, undef_at};
use lex::{Fault, Token};
use macros::{ReadIn, define_at};
use store::{undefine, undefine_all};
use text::part_of;

// A definition in taken text.
pub fn define(
    s: &[u8],
    t: Token,
    bytes: &mut [u8],
    records: &mut [[u32; 4]],
    name: &mut [u8],
    work: &mut [u8],
    form: &mut [u8],
    z: Stage,
) -> Step
    requires { Ready s.now bytes.old records.old z.macros name.old work.old form.old × Reads s.now 0 z.cursor }
    ensures { MacrosBy result s.now t bytes.old bytes.new records.old records.new z (λ h. define_act h.token.at (definition_at s.now t.end)) }
{
    let r = define_at(s, t.end, bytes, records, z.macros, name, work, form);
    match r {
        ReadIn::Done(n, e) => Step::On(Stage {
            macros: n,
            ..behind(z, s, e)
        }),
        ReadIn::Barred(n, p) => refuse(z, n, p),
        ReadIn::Bad => refuse(z, 11, t.at),
        ReadIn::NoRoom => refuse(z, 12, t.at),
    }
}

// Where the definition ends whose word ends at `at`, good or bad; or what bars it. The lent bytes have room for the brackets of
// any file.
fn hidden_at(s: &[u8], at: usize, name: &mut [u8], stack: &mut [u8]) -> Result<usize, Fault>
    requires { (length s.now ≤ 65535) × (1025 ≤ length name.old) × (16384 ≤ length stack.old) }
    ensures { result ≡ hidden_by (definition_at s.now at) }
{
    let r = judge_definition(s, at, name, stack);
    match r {
        Judged::Barred(n, p) => Err(Fault {
            number: n,
            place: p,
        }),
        Judged::Bad(e) => Ok(e),
        Judged::Good(e) => Ok(e),
        Judged::Short => Ok(at),
    }
}

// In ignored text a definition hides all up to its end.
pub fn hide(s: &[u8], t: Token, name: &mut [u8], stack: &mut [u8], z: Stage) -> Step
    requires { (1025 ≤ length name.old) × (16384 ≤ length stack.old) × Reads s.now 0 z.cursor }
    ensures { (bs : List ℕ) (rs : List (List ℕ)) → MacrosBy result s.now t bs bs rs rs z (λ h. hide_act (definition_at s.now t.end)) }
{
    let r = hidden_at(s, t.end, name, stack);
    match r {
        Err(f) => refuse(z, f.number, f.place),
        Ok(e) => Step::On(behind(z, s, e)),
    }
}

// `undef`.
pub fn undef(s: &[u8], t: Token, bytes: &mut [u8], records: &mut [[u32; 4]], z: Stage) -> Step
    requires { (length bytes.old ≤ 65536) × Stored bytes.old records.old z.macros × Reads s.now 0 z.cursor }
    ensures { MacrosBy result s.now t bytes.old bytes.new records.old records.new z (λ h. undef_act h (undef_at s.now t.end)) }
{
    let f = undef_at(s, t.end);
    match f {
        MacroName::Named(a, e) => {
            let n = undefine(bytes, records, z.macros, part_of(s, a, e));
            Step::On(Stage {
                macros: n,
                ..behind(z, s, e)
            })
        }
        MacroName::Unnamed => refuse(z, 7, t.at),
        MacroName::Barred(n, p) => refuse(z, n, p),
    }
}

// `undefineall`.
pub fn undef_all(s: &[u8], t: Token, bytes: &mut [u8], records: &mut [[u32; 4]], z: Stage) -> Step
    requires { Stored bytes.old records.old z.macros × Reads s.now 0 z.cursor }
    ensures { MacrosBy result s.now t bytes.old bytes.new records.old records.new z (λ h. undefines [] t.end) }
{
    undefine_all(bytes, records, z.macros);
    Step::On(Stage {
        macros: 0,
        ..behind(z, s, t.end)
    })
}
