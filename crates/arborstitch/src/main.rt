// The technician's command: flattens the files that its arguments name. The wrapper `bin/arborstitch` runs it and exits with
// what it answers on descriptor 3, one digit: 0 for a flat text, 1 for a refusal, 2 for bad usage or files that cannot be read or
// written.
#![tactic(auto)]

use answers::Answer;
use messages::WRAPPER;
use session::answer;
use std::process::ExitCode;

// The status of a program that a signal ended since nobody reads what it writes.
const UNREAD: u8 = 141;

fn main(rt: HostRuntime) -> ExitCode {
    let digit = match answer(&rt) {
        Answer::Done => b'0',
        Answer::Refused => b'1',
        Answer::Failed => b'2',
        Answer::Gone => return ExitCode::from(UNREAD),
    };
    io::write_all(WRAPPER, &[digit]);
    ExitCode::SUCCESS
}
