// The command from its arguments to its answer: help, or the plan checked and carried out.
#![tactic(auto)]

use answers::{Answer, said};
use command_line::read_words;
use delivery::set_all_aside;
use messages::{Failure, WRAPPER, complain};
use performing::{list_words, perform};
use plan::{Command, Plan, Sources};
use plan_checks::check_plan;
use sources::{make_entry, read_all};

// Reads the files and does what is asked with them.
fn run(rt: &HostRuntime, plan: &Plan, sources: &mut Sources) -> Result<Answer, Failure> {
    read_all(rt, plan, sources)?;
    match plan.command {
        Command::Classify => list_words(rt, plan, sources),
        _ => perform(rt, plan, sources),
    }
}

// Carries out a plan: one that cannot be carried out touches nothing; a run that does not succeed leaves no outputs.
fn carry_out(rt: &HostRuntime, plan: &Plan) -> Result<Answer, Failure> {
    check_plan(rt, plan)?;
    let mut sources = Sources::new(rt.alloc());
    let answered = match make_entry(plan, &mut sources) {
        Ok(()) => run(rt, plan, &mut sources),
        Err(Failure::Memory) => Err(Failure::Memory),
        Err(failure) => return Err(failure),
    };
    match answered {
        Ok(Answer::Done) => {}
        Err(Failure::Gone) => {}
        Err(Failure::Clash) => {}
        _ => set_all_aside(rt, plan),
    }
    answered
}

// Does what the command line asks.
fn answer_plan(rt: &HostRuntime, plan: &Plan) -> Result<Answer, Failure> {
    match plan.command {
        Command::Help => said(help::print_help(&mut rt.stdout())),
        Command::Version => said(help::print_version(&mut rt.stdout())),
        _ => {
            if identity::of_descriptor(rt, WRAPPER).is_none() {
                complain(
                    b"run bin/arborstitch",
                    b"this program alone has no exit status",
                );
                return Err(Failure::Told);
            }
            carry_out(rt, plan)
        }
    }
}

// Reads the command line and does what it asks.
fn run_command(rt: &HostRuntime) -> Result<Answer, Failure> {
    let plan = read_words(rt, rt.alloc())?;
    answer_plan(rt, &plan)
}

// The answer of the whole command.
pub fn answer(rt: &HostRuntime) -> Answer {
    match run_command(rt) {
        Ok(answer) => answer,
        Err(Failure::Gone) => Answer::Gone,
        Err(Failure::Memory) => {
            complain(b"the command", b"out of memory");
            Answer::Failed
        }
        Err(_) => Answer::Failed,
    }
}
