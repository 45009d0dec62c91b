// Outputs written and put in place together: all whole, or none.
#![tactic(auto)]

use messages::{Failure, complain};
use output_files::{OutputFile, Sink, set_aside};
use outputs::{Flat, write_defines, write_map, write_marked, write_rule, write_words};
use plan::{Output, Plan, Sources};
use std::alloc::Alloc;
use std::io::{Result as Written, Write};
use std::rt::Files;

// The outputs in the order in which they are written and put in place: the text is the last.
const ORDER: [Output; 4] = [Output::Rule, Output::Map, Output::Words, Output::Text];

// Whether there is that output. The text goes to standard output where it is not given.
fn is_written(plan: &Plan, output: Output) -> bool {
    (output == Output::Text) | plan.outputs.is_given(output)
}

// Writes an output that is open; as the text, with or without marks, or the macros.
fn write_output(
    to: &mut Sink,
    output: Output,
    plan: &Plan,
    sources: &Sources,
    flat: &Flat<'_>,
) -> Written<()> {
    match output {
        Output::Rule => write_rule(to, plan, sources, flat.included),
        Output::Map => write_map(to, sources, flat.map),
        Output::Words => write_words(to, flat.text, flat.words),
        Output::Text if plan.defines => { write_defines(to, flat.bytes, flat.records, flat.macros) }
        Output::Text if plan.lines => write_marked(to, flat.text, sources, flat.map),
        Output::Text => to.write_all(flat.text),
    }
}

// Writes all outputs, each whole; none of them has its name yet.
fn write_all(
    rt: &HostRuntime,
    files: &mut [OutputFile<'_>],
    plan: &Plan,
    sources: &Sources,
    flat: &Flat<'_>,
) -> Result<(), Failure> {
    for (output, file) in ORDER.iter().zip(files.iter_mut()) {
        if is_written(plan, *output) {
            let mut to = file.open(rt)?;
            let written = write_output(&mut to, *output, plan, sources, flat);
            file.close(to, written)?;
        }
    }
    Ok(())
}

// The new files take their names, the text's last.
fn place_all(rt: &(impl Files + Alloc), files: &mut [OutputFile<'_>]) -> Result<(), Failure> {
    for file in files.iter_mut() {
        file.place(rt)?;
    }
    Ok(())
}

// Writes all outputs and puts them in place.
fn deliver_once(
    rt: &HostRuntime,
    files: &mut [OutputFile<'_>],
    plan: &Plan,
    sources: &Sources,
    flat: &Flat<'_>,
) -> Result<(), Failure> {
    write_all(rt, files, plan, sources, flat)?;
    place_all(rt, files)
}

// Whether the outputs stay as they are: all are still of this run, or one of them could not be written again.
fn is_settled(rt: &impl Files, files: &[OutputFile<'_>]) -> bool {
    !files.iter().all(|file| file.is_repeatable()) || files.iter().all(|file| file.stands(rt))
}

// Writes all outputs and puts them in place: all of them, or none. Where another run put one of its own in place meanwhile, all
// are written again, so that a text and its map are always of one run.
pub fn deliver(
    rt: &HostRuntime,
    plan: &Plan,
    sources: &Sources,
    flat: &Flat<'_>,
) -> Result<(), Failure> {
    let mut files = ORDER.map(|output| OutputFile::new(plan.outputs.path(output)));
    for _ in 0..100 {
        if let Err(failure) = deliver_once(rt, &mut files, plan, sources, flat) {
            for file in files.iter_mut() {
                file.discard(rt);
            }
            return Err(failure);
        }
        if is_settled(rt, &files) {
            return Ok(());
        }
    }
    complain(
        plan.outputs.path(Output::Text),
        b"other runs keep writing the same outputs",
    );
    Err(Failure::Told)
}

// Sees to it that none of the outputs that are named stands, where the run did not succeed.
pub fn set_all_aside(rt: &(impl Files + Alloc), plan: &Plan) {
    for output in ORDER {
        set_aside(rt, plan.outputs.path(output));
    }
}
