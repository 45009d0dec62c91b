// Directives that are copied as written and kept as state (document 01, "Directives").
#![tactic(auto)]

ghost use Rattle.std.specs.Prelude.{◌≡◌};
ghost use Rattle.turns.specs.States.{Here};
ghost use Rattle.turns.specs.Acts.{keep_act};
ghost use Rattle.keeping.specs.Keeping.{KeepHere, Keepable, KeptBy};

use directive::{Form, form_at};
use lex::{Fault, Token};
use settings::{Settings, set_by};
use text::part_of;
use writing::{Spot, Wrote, write_whole};

// The directive `d` whose word is `t` of the file `s`, at a place: the state and where writing stands behind it, and its end.
pub fn keep(
    d: usize,
    s: &[u8],
    t: Token,
    set: usize,
    place: u32,
    c: Settings,
    text: &mut [u8],
    map: &mut [u32],
    z: Spot,
) -> Result<(Settings, Spot, usize), Fault>
    requires { Keepable s.now place text.old map.old z }
    ensures { (h : Here) → KeepHere h s.now t set place c text.old map.old z → KeptBy result h (keep_act d h) text.old text.new map.old map.new z }
{
    let f = form_at(d, s, t.end);
    match f {
        Form::Formed(v, e) => {
            let x = set_by(v, set, c);
            let r = write_whole(part_of(s, t.at, e), place, 1, text, map, z);
            match r {
                Wrote::Upto(y) => Ok((x, y, e)),
                Wrote::Full(k) => Err(Fault {
                    number: k,
                    place: t.at,
                }),
            }
        }
        Form::Unformed => Err(Fault {
            number: 7,
            place: t.at,
        }),
        Form::Barred(n, p) => Err(Fault {
            number: n,
            place: p,
        }),
    }
}
