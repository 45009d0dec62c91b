// Flattens the files on standard input, in the printing program's form, and writes the flat text: for measuring.
#![tactic(auto)]

ghost use Rattle.std.specs.Prelude.{◌≤◌, length};

use flatten::{Flattened, flatten};
use formats::{STDERR_FILENO, STDIN_FILENO, STDOUT_FILENO};
use text::part_of;

fn write_answer(r: Flattened, text: &[u8]) {
    io::write_all(STDOUT_FILENO, part_of(text, 0, r.written));
    if r.number != 0 {
        io::write_all(STDERR_FILENO, b"speed: refused ");
        io::print_decimal(STDERR_FILENO, r.number as u64);
        io::write_all(STDERR_FILENO, b"\n");
    }
}

// All buffers stand in one function: this is the fastest layout.
fn run(s: &[u8])
    requires { length s.now ≤ 200000 }
{
    let mut table = [[0u32; 5]; 65];
    let mut starts = [[0u32; 2]; 257];
    let mut text = [0u8; 262144];
    let mut map = [0u32; 65536];
    let mut records = [[0u32; 4]; 256];
    let mut bytes = [0u8; 65536];
    match input::parse(s, &mut table, &mut starts) {
        None => {
            io::write_all(STDERR_FILENO, b"speed: the input is not of the form\n");
        }
        Some((n, m)) => {
            let r = flatten(
                s,
                &table[0..n],
                0,
                &starts[0..m],
                3,
                1000000,
                &mut text,
                &mut map,
                &mut records,
                &mut bytes,
            );
            write_answer(r, &text);
        }
    }
}

fn main() {
    let mut input = [0u8; 200000];
    let n = io::read_full(STDIN_FILENO, &mut input);
    run(&input[..n]);
}
