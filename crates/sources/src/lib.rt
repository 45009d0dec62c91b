// The files and start macros of the technician's command, read into the byte store, with their include table; and the root
// entry that the command makes where it has several roots or macros with values.
#![tactic(auto)]

mod adding;
mod making;

pub use adding::read_found;
use adding::{add_file, add_start};
pub use making::make_entry;
use messages::{Failure, complain};
use plan::{FileKind, Item, Plan, Sources};
use std::io::Input;
use std::rt::Files;

// Reads what an item names.
fn read_item(rt: &(impl Files + Input), item: &Item, sources: &mut Sources) -> Result<(), Failure> {
    match item {
        Item::File(file) => add_file(rt, file, sources),
        Item::Macro(given) if given.value().is_none() => add_start(given.name(), sources),
        _ => Ok(()),
    }
}

// Whether entry `k`, where it is a root, is the first of its name: the made entry includes roots by name.
fn is_first(k: usize, sources: &Sources) -> bool {
    let Some(kind) = sources.kind(k) else {
        return true;
    };
    if !kind.is_root() {
        return true;
    }
    let name = sources.name(k);
    let e = handover::entry_of(sources.store.as_slice(), sources.table.as_slice(), 0, name);
    if e == k {
        return true;
    }
    (sources.kind(e) == Some(kind)) & (sources.path(e) == sources.path(k))
}

// Checks that each root is the first file of its name, where the command makes the root entry.
fn check_names(sources: &Sources) -> Result<(), Failure> {
    if sources.kind(0) != Some(FileKind::Made) {
        return Ok(());
    }
    for k in 0..sources.files.len() {
        if !is_first(k, sources) {
            complain(
                sources.name(k),
                b"two files have this name: give one of them without --strip",
            );
            return Err(Failure::Told);
        }
    }
    Ok(())
}

// Reads all files and start macros; a message is written where that fails.
pub fn read_all(
    rt: &(impl Files + Input),
    plan: &Plan,
    sources: &mut Sources,
) -> Result<(), Failure> {
    for item in plan.items.iter() {
        read_item(rt, item, sources)?;
    }
    check_names(sources)
}
