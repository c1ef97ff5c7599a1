//! The program plandesk: a current plan at the command line.
#![tactic(auto)]

mod desk;
mod playing;

use command_answers::Fault;
use desk::{desk_run, tell_fault};
use plan_basics::Watched;
use std::env;
use std::process::ExitCode;

/// The words that the program was started with. One that isn't UTF-8 is a fault.
fn own_words(rt: &HostRuntime) -> Result<Vec<String>, Fault> {
    let mut words = Vec::new(rt.alloc());
    let given = env::args(rt).map_err(|error| Fault::of_words(&error))?;
    for word in given {
        words.push(word).map_err(|_| Fault::Memory)?;
    }
    Ok(words)
}

fn main(rt: HostRuntime) -> ExitCode {
    let mut out = Watched::new(rt.stdout());
    let mut err = Watched::new(rt.stderr());
    let status = match own_words(&rt) {
        Ok(words) => desk_run(&rt, words.as_slice(), &mut out, &mut err),
        Err(fault) => tell_fault(fault, &mut err),
    };
    ExitCode::from(status)
}
