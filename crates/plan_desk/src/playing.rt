// `play`: a text of requests, or a journal, at a desk in memory.

use clap::ArgMatches;
use command_answers::{Ending, Fault, moment_of, plan_of_file};
use command_words::value_of;
use plan_basics::Watched;
use request_commands::{play_file, replay_files};
use std::io::Write;
use std::rt::HostRuntime;

/// `play`: the plan of a file is loaded into a desk in memory, and the requests of a text are made there, one after
/// another; or a journal is taken there, where the words give the files of one. The moment is judged before the files, and
/// all are read before anything is made.
pub fn play<W: Write>(
    rt: &HostRuntime,
    given: &ArgMatches,
    out: &mut Watched<W>,
) -> Result<Ending, Fault> {
    let at = moment_of(given)?;
    match plan_of_file(rt, value_of(given, "plan")) {
        Ok(draft) => match given.get_strs("journal") {
            Some(paths) => replay_files(rt, paths, at, draft, out),
            None => play_file(rt, value_of(given, "requests"), at, draft, out),
        },
        Err(fault) => Err(fault),
    }
}
