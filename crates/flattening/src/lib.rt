// The files flattened, with those that are found on the way.
#![tactic(auto)]

use messages::Failure;
use own::Own;
use plan::{Plan, Sources};
use search::find_missing;
use std::alloc::{AllocError, Global};
use std::rt::Files;

// What flatten writes: the flat text, its map and the macros' bytes, each as long as may be filled.
#[derive(Drop)]
pub struct Buffers {
    pub text: Vec<u8>,
    pub map: Vec<u32>,
    pub bytes: Vec<u8>,
}

impl Buffers {
    pub fn new(alloc: Global) -> Result<Buffers, AllocError> {
        Ok(Buffers {
            text: vec![in alloc; 0u8; 2097152]?,
            map: vec![in alloc; 0u32; 131072]?,
            bytes: vec![in alloc; 0u8; 65536]?,
        })
    }
}

fn flatten_once(plan: &Plan, sources: &Sources, buffers: &mut Buffers) -> Own {
    own::flatten(
        sources.store.as_slice(),
        sources.table.as_slice(),
        sources.root_entry(),
        sources.starts.as_slice(),
        plan.set,
        plan.limit,
        buffers.text.as_mut_slice(),
        buffers.map.as_mut_slice(),
        buffers.bytes.as_mut_slice(),
    )
}

// Flattens, and again for each included file that is found.
pub fn flatten_found(
    files: &impl Files,
    plan: &Plan,
    sources: &mut Sources,
    buffers: &mut Buffers,
) -> Result<Own, Failure> {
    let mut own = flatten_once(plan, sources, buffers);
    for _ in 0..64 {
        if own.answer.number != 9 {
            return Ok(own);
        }
        if !find_missing(files, plan, sources, own.answer.file, own.answer.byte)? {
            return Ok(own);
        }
        own = flatten_once(plan, sources, buffers);
    }
    Ok(own)
}
