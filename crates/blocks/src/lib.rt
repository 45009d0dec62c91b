// Conditional blocks (document 01, "Directives"): the open conditionals in a lent buffer.
#![tactic(auto)]

ghost use Rattle.std.specs.Prelude.{◌≡◌, Bool, true, false, [], ◌∷◌, ◌-◌, ◌<◌, get_or};
ghost use Rattle.blocks.specs.Blocks.{open_block, next_block, close_block};
ghost use Rattle.blocks.specs.Stacks.{blank_block, flag, open_in, BlocksIn, ChangedBy};

// How many conditionals are open, and whether text is taken.
#[derive(Clone, Copy)]
pub struct Blocks {
    pub open: usize,
    pub taken: bool,
}

// `ifdef` or `ifndef` at a place, whose condition is `b`; none where 32 are open.
pub fn open_block(
    w: &mut [[usize; 6]],
    z: Blocks,
    file: usize,
    byte: usize,
    b: bool,
) -> Option<Blocks>
    requires { BlocksIn w.old z }
    ensures { ChangedBy result (open_block file byte b (open_in w.old z.open)) w.old w.new }
{
    let n = z.open;
    if 32 <= n {
        return None;
    }
    let active = z.taken & b;
    w[n] = [
        file,
        byte,
        usize::from(z.taken),
        usize::from(active),
        usize::from(b),
        0,
    ];
    Some(Blocks {
        open: n + 1,
        taken: active,
    })
}

// `elsif` whose condition is `b`, or `else`, the last; none where no conditional is open, or behind `else`.
pub fn next_block(w: &mut [[usize; 6]], z: Blocks, b: bool, last: bool) -> Option<Blocks>
    requires { BlocksIn w.old z }
    ensures { ChangedBy result (next_block b last (open_in w.old z.open)) w.old w.new }
{
    let n = z.open;
    if n == 0 {
        return None;
    }
    let v = w[n - 1];
    if v[5] == 1 {
        return None;
    }
    let active = (v[2] == 1) & (!(v[4] == 1) & b);
    w[n - 1] = [
        v[0],
        v[1],
        v[2],
        usize::from(active),
        usize::from((v[4] == 1) | b),
        usize::from(last),
    ];
    Some(Blocks {
        open: n,
        taken: active,
    })
}

// Whether the block that `v` stands for is taken.
fn is_active(v: [usize; 6]) -> bool
    ensures { result ≡ flag (get_or v 3 0) }
{
    v[3] == 1
}

// `endif`; none where no conditional is open.
pub fn close_block(w: &[[usize; 6]], z: Blocks) -> Option<Blocks>
    requires { BlocksIn w.now z }
    ensures { ChangedBy result (close_block (open_in w.now z.open)) w.now w.now }
{
    let n = z.open;
    if n == 0 {
        return None;
    }
    if n == 1 {
        return Some(Blocks {
            open: 0,
            taken: true,
        });
    }
    Some(Blocks {
        open: n - 1,
        taken: is_active(w[n - 2]),
    })
}
