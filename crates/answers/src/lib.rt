// What the command answers once files are flattened: outputs, a refusal, warnings, pass, look up.
#![tactic(auto)]

use delivery::deliver;
use flatten::Flattened;
use flattening::Buffers;
use inputs::{fail_at, is_gone};
use messages::{Failure, complain, say, say_refusal, say_refused};
use outputs::Flat;
use own::Own;
use plan::{Command, Output, Plan, Sources};
use records::Record;
use refusals::{refuse, sum_up};
use search::say_missing;
use std::alloc::{AllocError, Global};
use std::io;
use std::io::Error;
use text::part_of;
use warnings::warn_all;

// What the command answers to the shell.
#[derive(Clone, Copy, PartialEq, Eq)]
pub enum Answer {
    Done,
    Refused,
    // bad usage, or a file that cannot be read or written
    Failed,
    // the reader of an output went away: there is no answer
    Gone,
}

// The failure where standard output could not be written, with a message unless its reader went away.
pub fn fail_output(error: Error) -> Failure {
    if is_gone(error) {
        return Failure::Gone;
    }
    fail_at(b"standard output", error);
    Failure::Told
}

// The answer where words were written to standard output: it is of no account whether they all were, unless its reader went away.
pub fn said(written: io::Result<()>) -> Result<Answer, Failure> {
    match written {
        Err(error) if is_gone(error) => Err(Failure::Gone),
        _ => Ok(Answer::Done),
    }
}

// The most words of a text.
const MOST_WORDS: usize = 131072;

// The words of a text; none, with a message that names the text, where they are refused.
pub fn words_of(
    alloc: Global,
    plan: &Plan,
    name: &[u8],
    text: &[u8],
) -> Result<Option<Vec<[u32; 3]>>, AllocError> {
    let mut words = vec![in alloc; [0u32; 3]; MOST_WORDS]?;
    let c = classify::classify(text, (plan.set % 4) as u32, words.as_mut_slice());
    if c.number != 0 {
        say_refusal(name, text, c.number, c.line, c.byte);
        return Ok(None);
    }
    words.truncate(c.words);
    Ok(Some(words))
}

// The name of macro `i`.
fn name_at<'a>(bytes: &'a [u8], records: &[Record; 4096], i: usize) -> &'a [u8] {
    if 4096 <= i {
        return b"";
    }
    let r = records[i];
    let start = r.start as usize;
    part_of(bytes, start, start + r.name_length as usize)
}

// Pass, on the macros that are left.
fn answer_pass(
    rt: &HostRuntime,
    bytes: &[u8],
    records: &[Record; 4096],
) -> Result<Answer, Failure> {
    match own::pass(bytes, *records) {
        pass::Answer::Yes => said(outputs::say(&mut rt.stdout(), b"pass: yes\n")),
        pass::Answer::Foreign => {
            say(b"arborstitch: pass: ");
            say_refused(1);
            Ok(Answer::Refused)
        }
        pass::Answer::Fault(i, n) => {
            say(b"arborstitch: pass: macro ");
            say(name_at(bytes, records, i));
            say(b": ");
            say_refused(n);
            Ok(Answer::Refused)
        }
    }
}

// Look up of that name, on the macros that are left.
fn answer_lookup(
    rt: &HostRuntime,
    name: &[u8],
    bytes: &[u8],
    records: &[Record; 4096],
) -> Result<Answer, Failure> {
    let form = own::look_up(bytes, *records, name);
    if form.is_empty() {
        complain(name, b"this macro is not defined");
        return Ok(Answer::Refused);
    }
    match outputs::show_macro(&mut rt.stdout(), form, macros::plain_name(name).len()) {
        Ok(()) => Ok(Answer::Done),
        Err(error) => Err(fail_output(error)),
    }
}

// Pass, or look up, on the macros that are left. It keeps a frame of its own, since pass takes 5 MiB, which are not to stand on the
// stack while files are flattened.
#[inline(never)]
pub fn answer_macros(
    rt: &HostRuntime,
    plan: &Plan,
    bytes: &[u8],
    records: &[Record; 4096],
) -> Result<Answer, Failure> {
    match plan.command {
        Command::Pass => answer_pass(rt, bytes, records),
        _ => answer_lookup(rt, plan.name.as_slice(), bytes, records),
    }
}

// Writes what is asked of a flat text, unless its words are refused; `included` tells where each file is included.
fn write_flat(
    rt: &HostRuntime,
    plan: &Plan,
    sources: &Sources,
    buffers: &Buffers,
    own: &Own,
    map: &[u32],
    included: &[u32],
) -> Result<Answer, Failure> {
    let r = own.answer;
    let text = part_of(buffers.text.as_slice(), 0, r.written);
    let listed = if plan.outputs.is_given(Output::Words) {
        words_of(rt.alloc(), plan, b"(flat text)", text)?
    } else {
        Some(Vec::new(rt.alloc()))
    };
    let Some(words) = listed else {
        return Ok(Answer::Refused);
    };
    let flat = Flat {
        text,
        map,
        words: words.as_slice(),
        included,
        bytes: part_of(buffers.bytes.as_slice(), 0, r.stored),
        records: &own.records,
        macros: r.macros,
    };
    deliver(rt, plan, sources, &flat)?;
    if !plan.quiet {
        sum_up(r);
    }
    Ok(Answer::Done)
}

// A flattening that is refused.
fn answer_refused(r: Flattened, sources: &Sources) -> Answer {
    refuse(r, sources);
    if r.number == 9 {
        say_missing(sources, r.file, r.byte);
    }
    Answer::Refused
}

// Whether the warnings let the run go on; `included` gets where each file is included.
fn pass_warnings(
    rt: &HostRuntime,
    plan: &Plan,
    sources: &Sources,
    map: &[u32],
    included: &mut [u32],
) -> bool {
    let warned = warn_all(rt, rt.alloc(), plan, sources, map, included);
    if (warned == 0) | !plan.strict {
        return true;
    }
    complain(b"--strict", b"there are warnings");
    false
}

// Writes what is asked of a flattening, or why it is refused; pass and look up ask nothing to be written.
pub fn finish(
    rt: &HostRuntime,
    plan: &Plan,
    sources: &Sources,
    buffers: &Buffers,
    own: &Own,
) -> Result<Answer, Failure> {
    let r = own.answer;
    if r.number != 0 {
        return Ok(answer_refused(r, sources));
    }
    let lines = r.lines.min(buffers.map.len());
    let map = &buffers.map.as_slice()[..lines];
    let mut included = vec![in rt.alloc(); 0u32; sources.files.len()]?;
    if !pass_warnings(rt, plan, sources, map, included.as_mut_slice()) {
        return Ok(Answer::Refused);
    }
    if plan.command != Command::Flatten {
        return Ok(Answer::Done);
    }
    write_flat(rt, plan, sources, buffers, own, map, included.as_slice())
}
