// What a request asks for, or the first test that it fails.
ghost use Rattle.std.specs.Prelude.{◌≡◌, ◌↔◌, ℕ, List, Err, true, false, IfOk, IfSome, MatchResult};
ghost use Rattle.plan_basics.specs.Watched.{inner_of, failed_of};
ghost use Rattle.http_messages.specs.Heads.{request_at};
ghost use Rattle.http_messages.specs.Tests.{status_of, SendsBody, HasBodyIn, FailsIn, ComesToIn, Answers, AnswersIn};

use crate::bodies::read_body;
use crate::fields::Head;
use crate::heads::read_head;
use crate::routes::{Route, route_of_line, segment_of};
use crate::statuses::{Method, Status};
use httparse::spans::EMPTY_HEADER_SPAN;
use plan_basics::Watched;
use plan_basics::limits::LONGEST_REQUEST_TEXT;
use std::alloc::{AllocError, Global};
use std::io::Read;

/// The most bytes of a head.
pub const MOST_HEAD_BYTES: usize = 8192;

/// The most fields of a head.
pub const MOST_FIELDS: usize = 64;

/// The most bytes of a body: a numbered request's text is no longer.
pub const MOST_BODY_BYTES: usize = LONGEST_REQUEST_TEXT;

/// What a request asks the desk for, its form being in order.
#[derive(Drop)]
pub enum Asked {
    /// That a tracker's report be taken: the body.
    Report(Vec<u8>),
    /// That an operator's request be taken: the body.
    Operator(Vec<u8>),
    /// The ready list of a workstation: its name's bytes, which may be no name.
    Ready(Vec<u8>),
    /// The list of occurrences.
    Occurrences,
}

/// The tests of a request's form, in their order.
#[derive(Clone, Copy)]
pub enum Rejection {
    /// The input begins with no head that is short enough.
    NoHead,
    /// A page of a browser makes the request, or it is to another name than this machine's own.
    Foreign,
    /// Who makes the request is said more than once, or in no form of it.
    Misnamed,
    /// The target doesn't begin with a slash.
    OtherForm,
    /// The path is no route's.
    NoRoute,
    /// The path is a route's that takes this method, and another was used.
    OtherMethod(Method),
    /// The body is sent in a coding.
    Coded,
    /// The body's length isn't told.
    NoLength,
    /// The body's length is told more than once, or not in one to nine digits.
    BadLength,
    /// The body is too long.
    TooLong,
    /// The input ends before the body does.
    CutShort,
}

impl Rejection {
    /// The status of the reply.
    pub fn status(self) -> Status
        ensures { result ≡ status_of self }
    {
        match self {
            Rejection::NoHead
            | Rejection::Misnamed
            | Rejection::OtherForm
            | Rejection::BadLength
            | Rejection::CutShort => Status::BadRequest,
            Rejection::Foreign => Status::Forbidden,
            Rejection::NoRoute => Status::NotFound,
            Rejection::OtherMethod(method) => Status::MethodNotAllowed(method),
            Rejection::Coded => Status::NotImplemented,
            Rejection::NoLength => Status::LengthRequired,
            Rejection::TooLong => Status::PayloadTooLarge,
        }
    }
}

/// Why an exchange could not be read.
#[derive(Clone, Copy)]
pub enum ExchangeFault {
    /// Memory lacked.
    Memory,
    /// The reader answered a fault.
    Reader,
}

impl From<AllocError> for ExchangeFault {
    ghost use Rattle.std.specs.Prelude.{◌≡◌};
    ghost use Rattle.http_messages.specs.declared.asking.ExchangeFault.{ExchangeFault};

    ghost from_gives = { λ _ fault. fault ≡ ExchangeFault.Memory };

    fn from(_e: AllocError) -> ExchangeFault {
        ExchangeFault::Memory
    }
}

/// The body that a head tells of, or the first test that fails from there on, whatever its path.
pub(crate) fn body_of<R: Read>(
    alloc: Global,
    reader: &mut Watched<R>,
    head: &Head<'_>,
    most: usize,
) -> Result<Result<Vec<u8>, Rejection>, ExchangeFault>
    requires fresh { failed_of reader.old ≡ false }
    ensures body { IfOk result (λ found. (target : List ℕ) → IfSome (R.remaining (inner_of reader.old)) (λ left.
        let request = record (request_at head.now.bytes.now head.now.headers.now head.now.spans left) { target = target } in
        SendsBody request → MatchResult found (λ body. HasBodyIn most request body.items) (FailsIn most request))) }
    ensures reader_fault { (result ≡ Err ExchangeFault.Reader) ↔ (failed_of reader.new ≡ true) }
{
    let length = match head.body_length(most) {
        Ok(length) => length,
        Err(test) => return Ok(Err(test)),
    };
    Ok(read_body(alloc, reader, head.rest(), length)?.ok_or(Rejection::CutShort))
}

/// What the request with this head comes to.
pub(crate) fn answer_of<R: Read>(
    alloc: Global,
    reader: &mut Watched<R>,
    head: &Head<'_>,
    most: usize,
) -> Result<Result<Asked, Rejection>, ExchangeFault>
    requires fresh { failed_of reader.old ≡ false }
    ensures answer { IfOk result (λ answer. IfSome (R.remaining (inner_of reader.old)) (λ left.
        ComesToIn most (request_at head.now.bytes.now head.now.headers.now head.now.spans left) answer)) }
    ensures reader_fault { (result ≡ Err ExchangeFault.Reader) ↔ (failed_of reader.new ≡ true) }
{
    let target = head.target();
    let route = match route_of_line(head.method(), target) {
        Ok(route) => route,
        Err(test) => return Ok(Err(test)),
    };
    match route {
        Route::Report => Ok(body_of(alloc, reader, head, most)?.map(Asked::Report)),
        Route::Operator => Ok(body_of(alloc, reader, head, most)?.map(Asked::Operator)),
        Route::Ready => Ok(Ok(Asked::Ready(segment_of(alloc, target)?))),
        Route::Occurrences => Ok(Ok(Asked::Occurrences)),
    }
}

/// Reads one request: what it asks for, or the first test of its form that it fails, in whatever pieces it comes. Nothing
/// is read once a test fails, a body is whole, or a head that takes none. Faults of earlier calls are forgotten; one that
/// the reader answers is `Reader`, any other failure want of memory. At most one head and one body are kept.
pub fn read_exchange<R: Read>(
    alloc: Global,
    reader: &mut Watched<R>,
) -> Result<Result<Asked, Rejection>, ExchangeFault>
    ensures answer { IfOk result (λ answer. IfSome (R.remaining (inner_of reader.old)) (λ input. Answers input answer)) }
    ensures reader_fault { (result ≡ Err ExchangeFault.Reader) ↔ (failed_of reader.new ≡ true) }
{
    read_exchange_in(alloc, reader, MOST_BODY_BYTES)
}

/// The same, where a body may have so many bytes.
pub fn read_exchange_in<R: Read>(
    alloc: Global,
    reader: &mut Watched<R>,
    most: usize,
) -> Result<Result<Asked, Rejection>, ExchangeFault>
    ensures answer { IfOk result (λ answer. IfSome (R.remaining (inner_of reader.old)) (λ input. AnswersIn most input answer)) }
    ensures reader_fault { (result ≡ Err ExchangeFault.Reader) ↔ (failed_of reader.new ≡ true) }
{
    reader.clear();
    let mut buffer = [0; MOST_HEAD_BYTES];
    let mut headers = [EMPTY_HEADER_SPAN; MOST_FIELDS];
    let Some((spans, filled)) = read_head(reader, &mut buffer, &mut headers)? else {
        return Ok(Err(Rejection::NoHead));
    };
    let head = Head {
        bytes: &buffer[..filled],
        headers: &headers,
        spans,
    };
    answer_of(alloc, reader, &head, most)
}
