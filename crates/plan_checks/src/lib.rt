// Whether a plan can be carried out: what it asks for goes together, and no output is a file that is read.
#![tactic(auto)]

use identity::{Identity, of_descriptor, of_path};
use messages::{Failure, STDIN_FILENO, complain};
use output_files::{is_standard, names_one, overwrites};
use plan::{Command, FileKind, Item, Output, Outputs, Plan};
use std::alloc::Alloc;
use std::rt::Files;

fn bad(what: &[u8], why: &[u8]) -> Result<(), Failure> {
    complain(what, why);
    Err(Failure::Told)
}

// Whether this is standard input.
fn is_input(item: &Item) -> bool {
    match item {
        Item::File(file) => file.kind == FileKind::Input,
        _ => false,
    }
}

// Whether it is what the command `words` does not take: a file to be included, or a macro.
fn is_other(item: &Item) -> bool {
    match item {
        Item::File(file) => !file.kind.is_root(),
        Item::Macro(_) => true,
        _ => false,
    }
}

// Whether an output is given.
fn has_outputs(outputs: &Outputs) -> bool {
    outputs.is_given(Output::Text)
        | outputs.is_given(Output::Map)
        | outputs.is_given(Output::Words)
        | outputs.is_given(Output::Rule)
}

// Whether the command takes the options given.
fn fits_command(plan: &Plan) -> bool {
    if plan.command == Command::Flatten {
        return true;
    }
    if has_outputs(&plan.outputs) | plan.lines | plan.defines {
        return false;
    }
    if plan.command != Command::Classify {
        return true;
    }
    (plan.count_roots() == 1) & !plan.items.iter().any(is_other)
}

// Whether the outputs asked for go together.
fn check_outputs(plan: &Plan) -> Result<(), Failure> {
    let outputs = &plan.outputs;
    let listed = outputs.is_given(Output::Map) | outputs.is_given(Output::Words);
    if plan.lines & listed {
        return bad(
            b"--lines with -m or -w",
            b"the marks move the lines: take the map or the marks",
        );
    }
    if plan.defines & (listed | plan.lines) {
        return bad(
            b"--defines with -m, -w or --lines",
            b"--defines writes macros in place of the text",
        );
    }
    if outputs.is_given(Output::Rule) & is_standard(outputs.path(Output::Text)) {
        return bad(
            b"-MD without -o FILE",
            b"the rule is for that file: give -o FILE",
        );
    }
    Ok(())
}

// Whether there is that output. The text goes to standard output where it is not given.
fn is_written(outputs: &Outputs, output: Output) -> bool {
    (output == Output::Text) | outputs.is_given(output)
}

// Whether there are both outputs, and they go to one file.
fn are_one(rt: &(impl Files + Alloc), outputs: &Outputs, a: Output, b: Output) -> bool {
    (is_written(outputs, a) & is_written(outputs, b))
        && names_one(rt, outputs.path(a), outputs.path(b))
}

// Whether no two outputs go to one file.
fn check_apart(rt: &(impl Files + Alloc), outputs: &Outputs) -> Result<(), Failure> {
    let pairs = [
        (Output::Map, Output::Words),
        (Output::Map, Output::Rule),
        (Output::Map, Output::Text),
        (Output::Words, Output::Rule),
        (Output::Words, Output::Text),
        (Output::Rule, Output::Text),
    ];
    for (a, b) in pairs {
        if are_one(rt, outputs, a, b) {
            return bad(
                b"-o, -m, -w and -MD",
                b"two of them name one file: give each its own",
            );
        }
    }
    Ok(())
}

// Whether the output would overwrite the file `read`, with a message.
fn clashes_at(
    files: &impl Files,
    outputs: &Outputs,
    output: Output,
    read: Option<Identity>,
) -> bool {
    let path = outputs.path(output);
    if !is_written(outputs, output) || !overwrites(files, path, read) {
        return false;
    }
    if is_standard(path) {
        complain(b"standard output", b"is a file that is read");
    } else {
        complain(path, b"an output may not overwrite a file that is read");
    }
    true
}

// Whether an output would overwrite the file `read`, with a message for each that would.
pub fn clashes(files: &impl Files, plan: &Plan, read: Option<Identity>) -> bool {
    clashes_at(files, &plan.outputs, Output::Text, read)
        | clashes_at(files, &plan.outputs, Output::Map, read)
        | clashes_at(files, &plan.outputs, Output::Words, read)
        | clashes_at(files, &plan.outputs, Output::Rule, read)
}

// The file that an item stands for, if it is one that is read.
fn file_of(files: &impl Files, item: &Item) -> Option<Identity> {
    match item {
        Item::File(file) => match file.kind {
            FileKind::Input => of_descriptor(files, STDIN_FILENO),
            _ => of_path(files, file.path.as_slice()),
        },
        Item::List(path) => of_path(files, path.as_slice()),
        Item::Folder(_) | Item::Macro(_) => None,
    }
}

// Whether no output would overwrite a file that is read.
fn check_read(files: &impl Files, plan: &Plan) -> Result<(), Failure> {
    for item in plan.items.iter() {
        if clashes(files, plan, file_of(files, item)) {
            return Err(Failure::Told);
        }
    }
    Ok(())
}

// Whether the plan can be carried out; with a message where it cannot.
pub fn check_plan(rt: &(impl Files + Alloc), plan: &Plan) -> Result<(), Failure> {
    if plan.lacks_value {
        return bad(b"the last option", b"its value is missing");
    }
    if plan.count_roots() == 0 {
        return bad(b"no root file is given", b"arborstitch -h tells how");
    }
    if plan.items.iter().filter(|item| is_input(item)).count() > 1 {
        return bad(b"-", b"standard input is given twice: it can be read once");
    }
    if !fits_command(plan) {
        return bad(
            b"pass, lookup and words take no outputs, and words one file and no -D",
            b"arborstitch -h tells how",
        );
    }
    check_outputs(plan)?;
    check_apart(rt, &plan.outputs)?;
    check_read(rt, plan)
}
