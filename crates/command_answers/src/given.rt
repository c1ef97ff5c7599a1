// What the words give: a moment, a request, the kind of a report. Each is judged before any file is touched.
ghost use Rattle.std.specs.Prelude.{◌≡◌, ◌⊎◌, IfOk, IfErr, codes};
ghost use Rattle.clap.specs.Matches.{first_value, found_of};
ghost use Rattle.plan_basics.specs.Minutes.{IsMinuteText};
ghost use Rattle.command_answers.specs.Given.{AsksNoReport, AsksReport, IsNoRequest, IsMinuteGiven, IsNoMinute, IsNoMinuteGiven};
ghost use Rattle.command_words.specs.Words.{text_given};
ghost use Rattle.command_answers.specs.declared.endings.Fault.{Fault};
ghost use Rattle.request_json.specs.Requests.{ReadsAsRequest};

use crate::endings::Fault;
use clap::ArgMatches;
use command_words::value_of;
use plan_basics::{WsName, minute_of_text};
use plan_records::Request;
use request_json::read_operator;
use std::alloc::Global;

/// Which report is asked for.
#[derive(Clone, Copy)]
pub enum Kind {
    /// What is ready on this workstation.
    Ready(WsName),
    /// All occurrences.
    Occurrences,
    /// The operations in error.
    Errors,
    /// The operations that are late.
    Late,
}

/// The moment that the words give. `Moment` where the text is none.
pub fn moment_of(given: &ArgMatches) -> Result<i64, Fault>
    ensures minute { IfOk result (IsMinuteText (text_given (found_of given.now) (codes "at"))) }
    ensures fault { IfErr result (λ fault. (fault ≡ Fault.Moment) × IsNoMinute (text_given (found_of given.now) (codes "at"))) }
{
    match minute_of_text(value_of(given, "at").as_bytes()) {
        Some(at) => Ok(at),
        None => Err(Fault::Moment),
    }
}

/// The moment that the words give an option, if they give it one. `Moment` where what they give is none.
pub fn moment_if_given(given: &ArgMatches, name: &str) -> Result<Option<i64>, Fault>
    ensures minute { IfOk result (IsMinuteGiven (first_value (found_of given.now) name.now)) }
    ensures fault { IfErr result (λ fault. (fault ≡ Fault.Moment) × IsNoMinuteGiven (first_value (found_of given.now) name.now)) }
{
    let Some(text) = given.get_str(name) else {
        return Ok(None);
    };
    match minute_of_text(text.as_bytes()) {
        Some(at) => Ok(Some(at)),
        None => Err(Fault::Moment),
    }
}

/// The request of an operator that a text says. `Request` where it says none.
pub fn request_of(alloc: Global, text: &[u8]) -> Result<Request, Fault>
    ensures request { IfOk result (ReadsAsRequest text.now) }
    ensures fault { IfErr result (λ fault. (fault ≡ Fault.Memory) ⊎ ((fault ≡ Fault.Request) × IsNoRequest text.now)) }
{
    match read_operator(alloc, text) {
        Ok(Some(request)) => Ok(request),
        Ok(None) => Err(Fault::Request),
        Err(_) => Err(Fault::Memory),
    }
}

// What is ready on the workstation that the words name.
fn ready_kind(given: &ArgMatches) -> Result<Kind, Fault>
    ensures kind { IfOk result (AsksReport (codes "ready") (first_value (found_of given.now) (codes "ws"))) }
    ensures fault { IfErr result (λ fault. (fault ≡ Fault.Words) × AsksNoReport (codes "ready") (first_value (found_of given.now) (codes "ws"))) }
{
    let Some(name) = given.get_str("ws") else {
        return Err(Fault::Words);
    };
    match WsName::from_text(name.as_bytes()) {
        Some(workstation) => Ok(Kind::Ready(workstation)),
        None => Err(Fault::Words),
    }
}

/// The report that the words ask for. `Words` where that of what is ready lacks the name of a workstation.
pub fn kind_of(given: &ArgMatches) -> Result<Kind, Fault>
    ensures kind { IfOk result (AsksReport (text_given (found_of given.now) (codes "kind")) (first_value (found_of given.now) (codes "ws"))) }
    ensures fault { IfErr result (λ fault. (fault ≡ Fault.Words) × AsksNoReport (text_given (found_of given.now) (codes "kind")) (first_value (found_of given.now) (codes "ws"))) }
{
    match value_of(given, "kind") {
        "ready" => ready_kind(given),
        "occurrences" => Ok(Kind::Occurrences),
        "errors" => Ok(Kind::Errors),
        "late" => Ok(Kind::Late),
        _ => Err(Fault::Words),
    }
}
