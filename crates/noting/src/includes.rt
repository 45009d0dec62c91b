// Which file includes which, and which files are included late: where bytes stand before on the line, so that the first
// line of the file shows another place in the map.
use directive::{FileName, include_at};
use handover::entry_of;
use lex::Token;
use plan::{FileKind, Sources};
use spots::{Place, Spot};
use text::part_of;

// How a file is included: whether late, and which file it includes by its own first byte.
#[derive(Clone, Copy)]
pub struct Inclusion {
    pub late: bool,
    pub head: Option<usize>,
}

// Where file `k` is included first, if it is.
pub fn place_at(included: &[u32], k: usize) -> Option<Place> {
    match included.get(k) {
        Some(entry) if *entry != 0 => Some(Place::of_entry(*entry)),
        _ => None,
    }
}

fn put_first(included: &mut [u32], k: usize, place: Place) {
    if let Some(entry) = included.get_mut(k) {
        if *entry == 0 {
            *entry = place.entry();
        }
    }
}

fn set_late(inclusions: &mut [Inclusion], k: usize) {
    if let Some(inclusion) = inclusions.get_mut(k) {
        inclusion.late = true;
    }
}

// File `k` is included at `z`: where bytes stand before on that line, the first line of the file goes on behind them.
fn note_late(inclusions: &mut [Inclusion], z: Spot, at: usize, k: usize) {
    if at != z.start {
        set_late(inclusions, k);
        return;
    }
    if z.line == 1 {
        if let Some(inclusion) = inclusions.get_mut(z.file) {
            inclusion.head = Some(k);
        }
    }
}

pub fn is_late(inclusions: &[Inclusion], k: usize) -> bool {
    match inclusions.get(k) {
        Some(inclusion) => inclusion.late,
        None => true,
    }
}

// What file `i` includes by its first byte, where it is late itself.
fn late_head(inclusions: &[Inclusion], i: usize) -> Option<usize> {
    match inclusions.get(i) {
        Some(inclusion) if inclusion.late => inclusion.head,
        _ => None,
    }
}

fn spread_once(inclusions: &mut [Inclusion]) {
    for i in 0..inclusions.len() {
        if let Some(k) = late_head(inclusions, i) {
            set_late(inclusions, k);
        }
    }
}

// Makes all files late that are so by others.
pub fn spread_late(inclusions: &mut [Inclusion]) {
    for _ in 0..inclusions.len() {
        spread_once(inclusions);
    }
}

fn note_include(
    sources: &Sources,
    z: Spot,
    at: usize,
    form: u32,
    name: &[u8],
    included: &mut [u32],
    inclusions: &mut [Inclusion],
) {
    let k = entry_of(
        sources.store.as_slice(),
        sources.table.as_slice(),
        form,
        name,
    );
    if sources.table.len() <= k {
        return;
    }
    note_late(inclusions, z, at, k);
    if sources.kind(z.file) == Some(FileKind::Made) {
        return;
    }
    let place = Place {
        file: z.file,
        line: z.line,
    };
    put_first(included, k, place);
}

// Takes note of the `include` at `z`, the token `t`.
pub fn take_include(
    sources: &Sources,
    z: Spot,
    t: Token,
    included: &mut [u32],
    inclusions: &mut [Inclusion],
) {
    let body = sources.body(z.file);
    match include_at(body, t.end).file {
        FileName::Unnamed => {}
        FileName::Quoted(a, e) => {
            note_include(
                sources,
                z,
                t.at,
                0,
                part_of(body, a, e),
                included,
                inclusions,
            );
        }
        FileName::Angled(a, e) => {
            note_include(
                sources,
                z,
                t.at,
                1,
                part_of(body, a, e),
                included,
                inclusions,
            );
        }
    }
}
