// What the command says of a flattening: its refusal with the source line, or a summary.
#![tactic(auto)]

use flatten::Flattened;
use handover::is_sound;
use messages::{complain, say, say_number, say_refusal, say_refused};
use plan::Sources;

// The first file that is not taken by itself.
fn bad_file(sources: &Sources) -> Option<usize> {
    let store = sources.store.as_slice();
    for (k, entry) in sources.table.as_slice().chunks(1).enumerate() {
        if !is_sound(store, entry, 0, &[], 3, 0, 0, 0) {
            return Some(k);
        }
    }
    None
}

// The first start macro that is not taken behind those before it.
fn bad_start(sources: &Sources) -> Option<usize> {
    let store = sources.store.as_slice();
    let table = sources.table.as_slice();
    let starts = sources.starts.as_slice();
    for k in 0..starts.len() {
        if !is_sound(store, table, 0, &starts[..k + 1], 3, 0, 256, 65536) {
            return Some(k);
        }
    }
    None
}

// Refusal 1: which file or start macro is not taken.
fn refuse_handed(sources: &Sources) {
    if let Some(k) = bad_file(sources) {
        complain(
            sources.path(k),
            b"a file has at most 65,535 bytes, and its name 1 to 255 printing bytes, no quote, \\ or >",
        );
        return;
    }
    if let Some(k) = bad_start(sources) {
        complain(
            sources.start(k),
            b"-D takes a macro's name, no directive's, once, or NAME=VALUE",
        );
    }
}

// A refusal: where, what it means, and the source line.
pub fn refuse(r: Flattened, sources: &Sources) {
    if r.number == 1 {
        say(b"arborstitch: ");
        say_refused(1);
        refuse_handed(sources);
        return;
    }
    let (path, body) = (sources.path(r.file), sources.body(r.file));
    say_refusal(path, body, r.number, r.line, r.byte);
}

// One line at the end.
pub fn sum_up(r: Flattened) {
    say(b"arborstitch: ");
    say_number(r.lines);
    say(b" lines, ");
    say_number(r.count);
    say(b" replacements, deepest nesting ");
    say_number(r.deepest);
    say(b", ");
    say_number(r.macros);
    say(b" macros left\n");
}
