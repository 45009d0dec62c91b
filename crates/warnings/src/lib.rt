// Warnings after a flattening: what was given or written and then dropped out in silence.
#![tactic(auto)]

mod files;
mod saying;
mod uses;

use messages::complain;
use noting::includes::spread_late;
use noting::notes::Notes;
use plan::{Plan, Sources};
use std::alloc::Global;
use std::rt::Files;

// Warns of what the command line gave in vain; how many warnings that are.
fn warn_of_options(
    files: &impl Files,
    alloc: Global,
    plan: &Plan,
    sources: &Sources,
    included: &[u32],
    notes: &mut Notes<'_>,
) -> usize {
    let unused = match uses::warn_unused(alloc, plan, sources) {
        Ok(warned) => warned,
        Err(_) => {
            notes.lost = true;
            0
        }
    };
    let given = files::warn_given(sources, included);
    let roots = files::warn_roots(files, sources, included);
    unused.saturating_add(given).saturating_add(roots)
}

// Warns of what the directives noted do along the map; how many warnings that are.
fn warn_of_directives<'a>(
    alloc: Global,
    plan: &'a Plan,
    sources: &'a Sources,
    map: &[u32],
    notes: &mut Notes<'a>,
) -> usize {
    spread_late(&mut notes.inclusions);
    notes.settle(sources);
    replaying::warn_definitions(alloc, plan, sources, map, notes)
}

// Says that warnings may be missing, which is a warning too.
fn warn_of_loss() -> usize {
    complain(b"warnings", b"out of memory: not all are written");
    1
}

// Warns on standard error, unless the plan is silent; how many warnings were written. `included` tells for each file where the
// first `include` of it stands: the file there times 131,072, and the line; 0 where there is none.
pub fn warn_all(
    files: &impl Files,
    alloc: Global,
    plan: &Plan,
    sources: &Sources,
    map: &[u32],
    included: &mut [u32],
) -> usize {
    let mut notes = noting::walk_files(alloc, sources, included);
    if plan.silent {
        return 0;
    }
    let of_options = warn_of_options(files, alloc, plan, sources, included, &mut notes);
    let of_directives = warn_of_directives(alloc, plan, sources, map, &mut notes);
    let of_loss = if notes.lost { warn_of_loss() } else { 0 };
    of_options
        .saturating_add(of_directives)
        .saturating_add(of_loss)
}
