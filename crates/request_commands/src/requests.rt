// `do` and `extend`: one request of an operator at the desk of a database's file.
ghost use Rattle.std.specs.Prelude.{◌≡◌, ◌⊎◌, IfOk, IfErr, codes};
ghost use Rattle.clap.specs.Matches.{found_of};
ghost use Rattle.plan_basics.specs.Watched.{inner_of};
ghost use Rattle.plan_records.specs.Answer.{answer_of};
ghost use Rattle.request_commands.specs.Asked.{IsAnswerTo, IsExtendShown, IsRequestAnswered, IsRequestShown};
ghost use Rattle.command_answers.specs.Given.{IsNoMinute, IsNoRequest};
ghost use Rattle.command_answers.specs.Statuses.{IsOfSurroundings};
ghost use Rattle.command_words.specs.Words.{text_given};
ghost use Rattle.command_answers.specs.declared.endings.Fault.{Fault};

use clap::ArgMatches;
use command_answers::{
    Ending, Fault, extension_of_file, moment_of, request_of, tell, tell_no_desk,
};
use command_desks::{Database, Desk, close_desk, run_all, stored_desk};
use command_words::value_of;
use plan_basics::Watched;
use plan_records::{Reply, Request, What};
use sqlite::{Alter, Connection};
use std::io::Write;
use std::rt::HostRuntime;
use std::slice;

// What a desk answers to a request, which is a run by itself.
fn reply_to<S: Alter + Drop>(desk: &mut Desk<S>, request: &Request) -> Reply
    ensures { IsAnswerTo request.now (answer_of result) }
{
    match run_all(desk, slice::from_ref(request)) {
        Ok(mut replies) => replies.pop().unwrap(),
        Err(refusal) => Reply::Refused(refusal),
    }
}

// Has a desk answer a request, shows the answer and closes the database. What is shown stands also where that fails.
fn answer<S: Alter + Drop, W: Write>(
    desk: Desk<S>,
    request: &Request,
    out: &mut Watched<W>,
) -> Result<Ending, Fault>
where
    Connection<S>: Database<S>,
    ensures shown { IfOk result (IsRequestAnswered request.now (W.contents (inner_of out.old)) (W.contents (inner_of out.new))) }
    ensures fault { IfErr result IsOfSurroundings }
{
    let mut desk = desk;
    let reply = reply_to(&mut desk, request);
    let told = tell(out, &reply);
    close_desk(desk)?;
    told
}

// Makes a request at the desk of a database's file.
fn make_stored<S: Alter + Drop, W: Write>(
    rt: &HostRuntime,
    path: &str,
    request: &Request,
    out: &mut Watched<W>,
) -> Result<Ending, Fault>
where
    Connection<S>: Database<S>,
    ensures shown { IfOk result (IsRequestAnswered request.now (W.contents (inner_of out.old)) (W.contents (inner_of out.new))) }
    ensures fault { IfErr result IsOfSurroundings }
{
    match stored_desk::<S>(rt, path) {
        Ok(desk) => answer(desk, request, out),
        Err(none) => tell_no_desk(out, none),
    }
}

/// `do`: the request is judged before the file. At its end the database is closed, but where its store has failed: then
/// the files are let go as they are.
pub fn make<S: Alter + Drop, W: Write>(
    rt: &HostRuntime,
    given: &ArgMatches,
    out: &mut Watched<W>,
) -> Result<Ending, Fault>
where
    Connection<S>: Database<S>,
    ensures shown { IfOk result (IsRequestShown (text_given (found_of given.now) (codes "request")) (W.contents (inner_of out.old)) (W.contents (inner_of out.new))) }
    ensures fault { IfErr result (λ fault. IsOfSurroundings fault ⊎ ((fault ≡ Fault.Request) × IsNoRequest (text_given (found_of given.now) (codes "request")))) }
{
    match request_of(rt.alloc(), value_of(given, "request").as_bytes()) {
        Ok(request) => make_stored::<S, W>(rt, value_of(given, "db"), &request, out),
        Err(fault) => Err(fault),
    }
}

/// `extend`: the plan at the desk of a database's file is extended by the extension of a file. The moment is judged before
/// the files, and the extension is read before the database is touched, which has to be there.
pub fn extend<S: Alter + Drop, W: Write>(
    rt: &HostRuntime,
    given: &ArgMatches,
    out: &mut Watched<W>,
) -> Result<Ending, Fault>
where
    Connection<S>: Database<S>,
    ensures shown { IfOk result (IsExtendShown (text_given (found_of given.now) (codes "at")) (W.contents (inner_of out.old)) (W.contents (inner_of out.new))) }
    ensures fault { IfErr result (λ fault. ((fault ≡ Fault.Moment) × IsNoMinute (text_given (found_of given.now) (codes "at"))) ⊎ IsOfSurroundings fault) }
{
    let at = moment_of(given)?;
    let extension = extension_of_file(rt, value_of(given, "plan"))?;
    let what = What::Extend(extension);
    make_stored::<S, W>(rt, value_of(given, "db"), &Request { at, what }, out)
}
