// The operations for a program that keeps its macro records by value: the local array is lent to `records` here, so that its
// callers are free of slices of structs.
#![tactic(auto)]

ghost use Rattle.std.specs.Prelude.{replicate};
ghost use Rattle.macros.specs.Looking.{Shows};
ghost use Rattle.pass.specs.Answer.{Passes};
ghost use Rattle.flatten.specs.Flattening.{lent, hand_over, Flattens};
ghost use Rattle.records.specs.Records.{no_record, rows_of};

use flatten::Flattened;
use pass::Answer;
use records::Record;

// What flatten answered, and the macro records that it left.
#[derive(Clone, Copy)]
pub struct Own {
    pub records: [Record; 4096],
    pub answer: Flattened,
}

// Flattens with 4,096 records of its own.
pub fn flatten(
    files: &[u8],
    table: &[[u32; 5]],
    root: usize,
    starts: &[[u32; 2]],
    set: usize,
    limit: usize,
    text: &mut [u8],
    map: &mut [u32],
    bytes: &mut [u8],
) -> Own
    ensures { Flattens (hand_over files.now table.now root starts.now set limit) (lent text.old map.old (rows_of (replicate 4096 no_record)) bytes.old) (lent text.new map.new (rows_of result.records) bytes.new) result.answer }
{
    let z = Record {
        start: 0,
        name_length: 0,
        text_start: 0,
        text_length: 0,
    };
    let mut records = [z; 4096];
    let answer = records::flatten(
        files,
        table,
        root,
        starts,
        set,
        limit,
        text,
        map,
        &mut records,
        bytes,
    );
    Own { records, answer }
}

// Look up on records of its own.
pub fn look_up<'a>(bytes: &'a [u8], records: [Record; 4096], name: &[u8]) -> &'a [u8]
    ensures { Shows bytes.now (rows_of records) name.now result.now }
{
    records::look_up(bytes, &records, name)
}

// Pass on records of its own.
pub fn pass(bytes: &[u8], records: [Record; 4096]) -> Answer
    ensures { Passes bytes.now (rows_of records) result }
{
    records::pass(bytes, &records)
}
