// Brackets in a default (document 01, "Macros"): the closing ones due, innermost first, in lent bytes, four in a byte.
#![tactic(auto)]

ghost use Rattle.std.specs.Prelude.{◌≡◌, List, [], ◌∷◌, ℕ, ◌*◌, ◌≤◌, ◌<◌, length};
ghost use Rattle.brackets.specs.Steps.{closing, on, step_of};
ghost use Rattle.brackets.specs.Stacks.{digit_of, bracket_of, level_of, stack_of, SteppedBy};
ghost use Rattle.brackets.specs.Stacks.{weight as weight_of};

// What a byte does in a default: closing brackets due then, or the default's end, or none fits, or no room.
#[derive(Clone, Copy)]
pub enum Stepped {
    On(usize),
    Done,
    Torn,
    Short,
}

// What digit `j` of a byte counts.
fn weight(j: usize) -> u8
    ensures { result ≡ weight_of j }
{
    if j == 0 {
        return 1;
    }
    if j == 1 {
        return 4;
    }
    if j == 2 { 16 } else { 64 }
}

// The digit of a closing bracket.
fn digit_of(b: u8) -> u8
    ensures { result ≡ digit_of b }
{
    if b == 41 {
        return 0;
    }
    if b == 93 { 1 } else { 2 }
}

// The closing bracket of a digit.
fn bracket_of(k: u8) -> u8
    ensures { result ≡ bracket_of k }
{
    if k == 0 {
        return 41;
    }
    if k == 1 { 93 } else { 125 }
}

// The closing bracket at `depth`.
fn level(stack: &[u8], depth: usize) -> u8
    requires { depth < 4 * length stack.now }
    ensures { result ≡ level_of stack.now depth }
{
    let b = stack[depth / 4];
    let w = weight(depth % 4);
    bracket_of(b / w % 4)
}

// A closing bracket `b`.
fn close(stack: &[u8], depth: usize, b: u8) -> Stepped
    requires { depth ≤ 4 * length stack.now }
    ensures { SteppedBy result (closing b (stack_of stack.now depth)) stack.now stack.now depth }
{
    if depth == 0 {
        return Stepped::Torn;
    }
    let d = depth - 1;
    if level(stack, d) == b {
        return Stepped::On(d);
    }
    Stepped::Torn
}

// An opening bracket, whose closing one is `b`.
fn push(stack: &mut [u8], depth: usize, b: u8) -> Stepped
    requires { (depth ≤ 4 * length stack.old) × (b ≡ bracket_of (digit_of b)) }
    ensures { SteppedBy result (on (b ∷ stack_of stack.old depth)) stack.old stack.new depth }
{
    let i = depth / 4;
    if stack.len() <= i {
        return Stepped::Short;
    }
    if depth == 18446744073709551615 {
        return Stepped::Short;
    }
    let w = weight(depth % 4);
    stack[i] = stack[i] % w + digit_of(b) * w;
    Stepped::On(depth + 1)
}

// What the byte `b`, a token of its own, does in a default.
pub fn step(stack: &mut [u8], depth: usize, b: u8) -> Stepped
    requires { depth ≤ 4 * length stack.old }
    ensures { SteppedBy result (step_of b (stack_of stack.old depth)) stack.old stack.new depth }
{
    if b == 44 {
        if depth == 0 {
            return Stepped::Done;
        }
        return Stepped::On(depth);
    }
    if b == 41 {
        if depth == 0 {
            return Stepped::Done;
        }
        return close(stack, depth, 41);
    }
    if (b == 93) | (b == 125) {
        return close(stack, depth, b);
    }
    if b == 40 {
        return push(stack, depth, 41);
    }
    if b == 91 {
        return push(stack, depth, 93);
    }
    if b == 123 {
        return push(stack, depth, 125);
    }
    Stepped::On(depth)
}
