// The technician's command line: each of its words taken into the plan.
#![tactic(auto)]

mod taking;

use messages::Failure;
use plan::Plan;
use std::alloc::Global;
use std::env::Env;
use std::rt::Files;
use taking::Taking;
use word_lists::{MOST_WORDS, Words};

// Takes all words; a message is written where one is not taken. `-h` and `--version` end the command line.
pub fn read_words(rt: &(impl Env + Files), alloc: Global) -> Result<Plan, Failure> {
    let words = Words::gather(rt, alloc)?;
    let mut taking = Taking::new(words, alloc);
    for i in 0..MOST_WORDS {
        let Some(entry) = taking.next() else {
            break;
        };
        taking.take(rt, entry, i == 0)?;
        if taking.is_ended() {
            break;
        }
    }
    Ok(taking.into_plan())
}
