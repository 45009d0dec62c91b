// What the command does with the files that it read.
#![tactic(auto)]

use answers::{Answer, answer_macros, fail_output, finish, words_of};
use flattening::{Buffers, flatten_found};
use messages::Failure;
use plan::{Command, Plan, Sources};

// The macros' bytes alone: text and map go before pass takes its stack.
fn macro_bytes(buffers: Buffers) -> Vec<u8> {
    let Buffers { bytes, .. } = buffers;
    bytes
}

// Flattens, and answers what is asked: pass and look up where the flattening was not refused.
pub fn perform(rt: &HostRuntime, plan: &Plan, sources: &mut Sources) -> Result<Answer, Failure> {
    let mut buffers = Buffers::new(rt.alloc())?;
    let own = flatten_found(rt, plan, sources, &mut buffers)?;
    let answer = finish(rt, plan, sources, &buffers, &own)?;
    if (plan.command == Command::Flatten) | (answer != Answer::Done) {
        return Ok(answer);
    }
    answer_macros(rt, plan, macro_bytes(buffers).as_slice(), &own.records)
}

// The words of the one file, whatever its size.
pub fn list_words(rt: &HostRuntime, plan: &Plan, sources: &Sources) -> Result<Answer, Failure> {
    let k = sources.root_entry();
    let body = sources.body(k);
    let Some(words) = words_of(rt.alloc(), plan, sources.path(k), body)? else {
        return Ok(Answer::Refused);
    };
    match outputs::write_words(&mut rt.stdout(), body, words.as_slice()) {
        Ok(()) => Ok(Answer::Done),
        Err(error) => Err(fail_output(error)),
    }
}
