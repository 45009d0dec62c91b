// Files given for includes that nothing includes, and roots that are included too.
use crate::saying::{say_not_included, say_root};
use identity::{is_same, of_path};
use noting::includes::place_at;
use plan::{FileKind, Sources};
use spots::Place;
use std::rt::Files;

// Warns of the files given for includes that no file includes; how many warnings that are.
pub fn warn_given(sources: &Sources, included: &[u32]) -> usize {
    let mut warned = 0usize;
    for (k, file) in sources.files.iter().enumerate() {
        let angled = file.kind == FileKind::Angled;
        let given = (file.kind == FileKind::Included) | angled;
        if given & place_at(included, k).is_none() {
            say_not_included(sources.path(k), angled);
            warned = warned.saturating_add(1);
        }
    }
    warned
}

// Whether two paths lead to one file.
fn is_same_file(files: &impl Files, a: &[u8], b: &[u8]) -> bool {
    is_same(of_path(files, a), of_path(files, b))
}

fn is_root(sources: &Sources, k: usize) -> bool {
    match sources.kind(k) {
        Some(kind) => kind.is_root(),
        None => false,
    }
}

// Where entry `k` is included as the file that the root `root` is, if it is.
fn place_as(
    files: &impl Files,
    sources: &Sources,
    included: &[u32],
    root: usize,
    k: usize,
) -> Option<Place> {
    let place = place_at(included, k)?;
    if k == root {
        return Some(place);
    }
    if is_root(sources, k) {
        return None;
    }
    if is_same_file(files, sources.path(root), sources.path(k)) {
        return Some(place);
    }
    None
}

// Where the root `root` is included too, as an entry of any kind, if it is.
fn find_place(
    files: &impl Files,
    sources: &Sources,
    included: &[u32],
    root: usize,
) -> Option<Place> {
    for k in 0..sources.files.len() {
        let place = place_as(files, sources, included, root, k);
        if place.is_some() {
            return place;
        }
    }
    None
}

// Warns of the roots that are included too; how many warnings that are.
pub fn warn_roots(files: &impl Files, sources: &Sources, included: &[u32]) -> usize {
    let mut warned = 0usize;
    for k in 0..sources.files.len() {
        if !is_root(sources, k) {
            continue;
        }
        if let Some(place) = find_place(files, sources, included, k) {
            say_root(sources, k, place);
            warned = warned.saturating_add(1);
        }
    }
    warned
}
