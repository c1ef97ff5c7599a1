// What a request that was accepted tells of starts.
ghost use Rattle.std.specs.Prelude.{◌≡◌, IfOk};
ghost use Rattle.journal_starts.specs.Mentions.{IsMentionAsked, IsMentionOf, IsMinuteUpTo, IsRequestOf, IsStartOf, request_in as request_told};

use plan_basics::{Moment, OpKey};
use plan_records::{Request, What};
use std::alloc::{AllocError, Global};
use tracker_http::{Asked, Reading, read_asked};

// The minute of a moment that isn't after this clock.
fn minute_up_to(at: i64, clock: Moment) -> Option<Moment>
    ensures { IsMinuteUpTo clock at result }
{
    if at > clock.minute() {
        return None;
    }
    Moment::new(at)
}

// The minute of the start that a request reports, where it reports one that isn't after this clock.
fn start_of(request: &Request, clock: Moment) -> Option<Moment>
    ensures { IsStartOf clock request.now result }
{
    match &request.what {
        What::Started(_) => minute_up_to(request.at, clock),
        _ => None,
    }
}

// The operation that a request is about, if it is about one, and its start.
fn mention_of(request: &Request, clock: Moment) -> Option<(OpKey, Option<Moment>)>
    ensures { IsMentionOf clock request.now result }
{
    let key = request.what.operation()?;
    Some((key, start_of(request, clock)))
}

// The request that was read, if one was.
fn request_in(reading: Reading) -> Option<Request>
    ensures { result ≡ request_told reading }
{
    match reading {
        Reading::Report(report) => Some(report.request),
        Reading::Operator(request) => Some(request),
        Reading::Nothing => None,
    }
}

// The request that is asked, if anything is and it is one.
fn request_of(alloc: Global, asked: &Option<Asked>) -> Result<Option<Request>, AllocError>
    ensures { IfOk result (IsRequestOf asked.now) }
{
    let Some(asked) = asked else {
        return Ok(None);
    };
    match read_asked(alloc, asked) {
        Ok(reading) => Ok(request_in(reading)),
        Err(_) => Err(AllocError),
    }
}

/// What is told by the request that is asked so, if anything is and it is one.
pub(crate) fn mention_asked(
    alloc: Global,
    asked: &Option<Asked>,
    clock: Moment,
) -> Result<Option<(OpKey, Option<Moment>)>, AllocError>
    ensures { IfOk result (IsMentionAsked clock asked.now) }
{
    match request_of(alloc, asked)? {
        Some(request) => Ok(mention_of(&request, clock)),
        None => Ok(None),
    }
}
