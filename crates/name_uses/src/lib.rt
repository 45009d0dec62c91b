// Which tokens of a file name a macro to test or use it: names that conditional words test, and usages.
#![tactic(auto)]

ghost use Rattle.std.specs.Prelude.{◌≡◌};
ghost use Rattle.name_uses.specs.Waiting.{tests, opened, closed, after_token};

use lex::{ESCAPED, GRAVE, NAME, NEWLINE, Token, is_byte, is_gap};
use names::{ELSIF, IFDEF, IFNDEF};

// What a conditional word waits for.
#[derive(Clone, Copy, PartialEq, Eq)]
pub enum Due {
    Nothing,
    // a name, or the `(` of a condition
    Condition,
    // so many `)`
    Closings(usize),
}

fn is_conditional(d: usize) -> bool
    ensures { result ≡ tests d }
{
    (d == IFDEF) | ((d == IFNDEF) | (d == ELSIF))
}

impl Due {
    // One `(` more.
    fn opened(self) -> Due
        ensures { result ≡ opened self }
    {
        match self {
            Due::Closings(open) => Due::Closings(open.saturating_add(1)),
            _ => Due::Closings(1),
        }
    }

    // One `)` less.
    fn closed(self) -> Due
        ensures { result ≡ closed self }
    {
        match self {
            Due::Closings(open) if 1 < open => Due::Closings(open - 1),
            _ => Due::Nothing,
        }
    }

    // What is waited for past the token `t`, which is the directive `d`.
    pub fn after(self, body: &[u8], t: Token, d: usize) -> Due
        ensures { result ≡ after_token self body.now t d }
    {
        if is_conditional(d) {
            return Due::Condition;
        }
        if t.kind == NEWLINE {
            return Due::Nothing;
        }
        if is_gap(t) | (self == Due::Nothing) {
            return self;
        }
        if is_byte(body, t, b'(') {
            return self.opened();
        }
        if is_byte(body, t, b')') {
            return self.closed();
        }
        match self {
            Due::Closings(open) => Due::Closings(open),
            _ => Due::Nothing,
        }
    }

    // Whether the token `t`, which is the directive `d`, is a name that a conditional word tests, or a usage.
    pub fn is_use(self, t: Token, d: usize) -> bool {
        let named = (t.kind == NAME) | (t.kind == ESCAPED);
        ((self != Due::Nothing) & named) | ((t.kind == GRAVE) & (d == 0))
    }
}
