// One run of the desk: from its words to its answer and the status that it ends with.
ghost use Rattle.std.specs.Prelude.{◌≡◌, ◌⊎◌, ◌≤◌, IfOk, IfErr};
ghost use Rattle.clap.specs.Values.{kind_of};
ghost use Rattle.command_answers.specs.Statuses.{EndsExplaining, fault_status, IsOfSurroundings, IsStatusOf};

use crate::playing::play;
use clap::ArgMatches;
use clap::error::{Error, ErrorKind};
use command_answers::{Ending, Fault};
use command_desks::{Database, DatabaseFile};
use command_words::desk_command;
use desk_runs::{run_desk, serve};
use plan_basics::Watched;
use report_commands::{Prospect, look_ahead, report, show, why};
use request_commands::{check, extend, load, make};
use sqlite::{Alter, Connection};
use std::alloc::Global;
use std::io::Write;
use std::rt::HostRuntime;
use text_commands::validate;

/// Shows what `clap` has to say where it hands out no words: help on standard output, else what is wrong with them.
#[tactic(auto, using(command_answers::proofs::Statuses::of_the_surroundings))]
fn explain<W: Write, E: Write>(
    error: &Error,
    out: &mut Watched<W>,
    err: &mut Watched<E>,
) -> Result<Ending, Fault>
    ensures ending { IfOk result (EndsExplaining (kind_of error.now)) }
    ensures fault { IfErr result IsOfSurroundings }
{
    if error.kind() == ErrorKind::OutOfMemory {
        return Err(Fault::Memory);
    }
    if error.use_stderr() {
        write!(err, "{error}")?;
        Ok(Ending::Misunderstood)
    } else {
        write!(out, "{error}")?;
        Ok(Ending::Done)
    }
}

/// Does what a command asks for.
fn do_command<S: Alter + Drop, W: Write>(
    rt: &HostRuntime,
    name: &str,
    given: &ArgMatches,
    out: &mut Watched<W>,
) -> Result<Ending, Fault>
where
    Connection<S>: Database<S>,
{
    match name {
        "validate" => validate::<S, W>(rt, given, out),
        "check" => check(rt, given, out),
        "load" => load::<S, W>(rt, given, out),
        "extend" => extend::<S, W>(rt, given, out),
        "do" => make::<S, W>(rt, given, out),
        "report" => report::<S, W>(rt, given, out),
        "show" => show::<S, W>(rt, given, out),
        "why" => why::<S, W>(rt, given, out),
        "forecast" => look_ahead::<S, W>(rt, Prospect::Forecast, given, out),
        "board" => look_ahead::<S, W>(rt, Prospect::Board, given, out),
        "serve" => serve::<S, W>(rt, given, out),
        "desk" => run_desk::<S, W>(rt, given, out),
        "play" => play(rt, given, out),
        _ => Err(Fault::Words),
    }
}

/// Does what the words ask for, at desks whose databases are files, and has standard output take all of the answer.
// It is flushed before the status is chosen: where that fails it is a fault, though the request was accepted.
fn do_asked<W: Write>(
    rt: &HostRuntime,
    asked: &ArgMatches,
    out: &mut Watched<W>,
) -> Result<Ending, Fault> {
    let Some((name, given)) = asked.subcommand() else {
        return Err(Fault::Words);
    };
    let ending = do_command::<DatabaseFile, W>(rt, name, given, out)?;
    out.flush()?;
    Ok(ending)
}

/// What the words ask for, or what is to be said of them.
fn understood<'a>(alloc: Global, words: &'a [String]) -> Result<ArgMatches<'a>, Error> {
    match desk_command(alloc) {
        Ok(command) => command.try_get_matches_from(words),
        Err(error) => Err(Error::from(error)),
    }
}

/// Understands the words and does what they ask for.
fn obey<W: Write, E: Write>(
    rt: &HostRuntime,
    words: &[String],
    out: &mut Watched<W>,
    err: &mut Watched<E>,
) -> Result<Ending, Fault> {
    match understood(rt.alloc(), words) {
        Ok(matches) => do_asked(rt, &matches, out),
        Err(error) => explain(&error, out, err),
    }
}

/// Shows a fault on standard error, and gives the exit status: that of a stream's fault where standard error fails too.
pub fn tell_fault<E: Write>(fault: Fault, err: &mut Watched<E>) -> u8
    ensures { (result ≡ fault_status fault) ⊎ (result ≡ 3) }
{
    if writeln!(err, "{fault}").is_ok() {
        fault.status()
    } else {
        Fault::File.status()
    }
}

/// The exit status of a run: that of its ending, or of its fault, which is shown.
fn status_of<E: Write>(outcome: Result<Ending, Fault>, err: &mut Watched<E>) -> u8
    ensures { IsStatusOf outcome result }
{
    match outcome {
        Ok(ending) => ending.status(),
        Err(fault) => tell_fault(fault, err),
    }
}

/// Runs the desk with these words, of which the first is the program's name, and gives the exit status: 0 accepted or
/// done, 1 refused, 2 a fault of the words, the moment or a request, 3 a fault of a file, a standard stream, the network
/// or memory outside the plan. Answers go to `out`, faults to `err`. (The words and their meaning: this project's own.)
#[tactic(auto, using(command_answers::proofs::Statuses::status_at_most))]
pub fn desk_run<W: Write, E: Write>(
    rt: &HostRuntime,
    words: &[String],
    out: &mut Watched<W>,
    err: &mut Watched<E>,
) -> u8
    ensures { result ≤ 3 }
{
    status_of(obey(rt, words, out, err), err)
}
