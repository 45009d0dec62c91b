// The directive state (document 01, "Directives"): what the copied directives leave.
#![tactic(auto)]

ghost use Rattle.std.specs.Prelude.{◌≡◌};
ghost use Rattle.settings.specs.Settings.{keywords_by, reset_to, set_by};

use directive::Value;

// A time scale, if there is one, as powers of ten; net type, cell, drive and keyword set by their numbers.
#[derive(Clone, Copy)]
pub struct Settings {
    pub scaled: bool,
    pub unit: usize,
    pub precision: usize,
    pub net: usize,
    pub cell: usize,
    pub drive: usize,
    pub keywords: usize,
}

// The state at the start.
pub fn reset_to(set: usize) -> Settings
    ensures { result ≡ reset_to set }
{
    Settings {
        scaled: false,
        unit: 0,
        precision: 0,
        net: 0,
        cell: 0,
        drive: 0,
        keywords: set,
    }
}

// The keyword set behind a directive that says `v`, `set` being the one at the start and `k` the one before.
pub fn keywords_after(v: Value, set: usize, k: usize) -> usize
    ensures { result ≡ keywords_by v set k }
{
    match v {
        Value::Nothing => k,
        Value::Times(_, _) => k,
        Value::NetType(_) => k,
        Value::Cell(_) => k,
        Value::Drive(_) => k,
        Value::Version(n) => n,
        Value::StartingSet => set,
        Value::Reset => set,
    }
}

// The state behind a directive that says `v`.
pub fn set_by(v: Value, set: usize, c: Settings) -> Settings
    ensures { result ≡ set_by v set c }
{
    let mut r = c;
    r.keywords = keywords_after(v, set, c.keywords);
    match v {
        Value::Nothing => {
            return r;
        }
        Value::Times(u, p) => {
            r.scaled = true;
            r.unit = u;
            r.precision = p;
            return r;
        }
        Value::NetType(n) => {
            r.net = n;
            return r;
        }
        Value::Cell(n) => {
            r.cell = n;
            return r;
        }
        Value::Drive(n) => {
            r.drive = n;
            return r;
        }
        Value::Version(_) => {
            return r;
        }
        Value::StartingSet => {
            return r;
        }
        Value::Reset => {
            return reset_to(r.keywords);
        }
    }
}
