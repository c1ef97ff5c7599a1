// The parts of a head, and the length of the body that its fields tell.
ghost use Rattle.std.specs.Prelude.{◌≡◌, ◌≢◌, ◌↔◌, ℕ, List, [], ◌∷◌, ◌++◌, length, drop, take, map, All, IfOk, IsTrue, MatchOption, MatchResult, option_map, string_bytes};
ghost use Rattle.httparse.specs.Spans.{span_bytes, header_bytes, IsHeaderWithin, IsRequestWithin};
ghost use Rattle.http_messages.specs.Fields.{is_named as has_name, values_of as named_values, IsLengthText, TellsLength};
ghost use Rattle.http_messages.specs.Foreign.{IsForeign};
ghost use Rattle.http_messages.specs.Heads.{AreValues};
ghost use Rattle.http_messages.specs.Requesters.{IsBy, IsMisnamed};
ghost use Rattle.http_messages.specs.Statuses.{method_text};
ghost use Rattle.http_messages.specs.declared.statuses.Method.{Method as MethodValue};
ghost use Rattle.http_messages.specs.Tests.{Request, SendsBody, codings_of, lengths_of, HasGoodLengthIn, FailsIn};

use crate::asking::Rejection;
use crate::hosts::are_foreign;
use crate::requesters::requester_of;
use crate::statuses::Method;
use httparse::spans::{HeaderSpan, RequestSpans};
use std::alloc::{AllocError, Global};

/// A head that was read: the bytes so far, and where its parts are.
#[derive(Drop)]
pub(crate) struct Head<'b> {
    pub(crate) bytes: &'b [u8],
    pub(crate) headers: &'b [HeaderSpan],
    pub(crate) spans: RequestSpans,
    ghost within: { IsRequestWithin bytes.now headers.now spans },
}

/// The values of the fields of one name.
#[derive(Clone, Copy)]
pub(crate) enum Values<'b> {
    Absent,
    Single(&'b [u8]),
    Several,
}

impl<'b> Head<'b> {
    pub(crate) fn method(&self) -> &'b [u8]
        ensures { result.now ≡ span_bytes self.now.bytes.now self.now.spans.method }
    {
        self.spans.method.of(self.bytes)
    }

    pub(crate) fn target(&self) -> &'b [u8]
        ensures { result.now ≡ span_bytes self.now.bytes.now self.now.spans.path }
    {
        self.spans.path.of(self.bytes)
    }

    /// What was read after the head.
    pub(crate) fn rest(&self) -> &'b [u8]
        ensures { result.now ≡ drop self.now.spans.len self.now.bytes.now }
    {
        &self.bytes[self.spans.len..]
    }

    // The values of the fields of this name.
    fn values(&self, name: &[u8]) -> Values<'b>
        ensures { AreValues (named_values name.now (map (header_bytes self.now.bytes.now) (take self.now.spans.headers self.now.headers.now))) result }
    {
        values_of(self.bytes, &self.headers[..self.spans.headers], name)
    }

    // Whether there is a field of this name.
    fn has(&self, name: &[u8]) -> bool
        ensures { IsTrue result ↔ (named_values name.now (map (header_bytes self.now.bytes.now) (take self.now.spans.headers self.now.headers.now)) ≢ []) }
    {
        !self.values(name).are_absent()
    }

    // Whether something is sent.
    fn is_post(&self) -> bool
        ensures { IsTrue result ↔ (span_bytes self.now.bytes.now self.now.spans.method ≡ method_text MethodValue.Post) }
    {
        self.method() == Method::Post.as_str().as_bytes()
    }

    /// Whether the request is foreign.
    pub(crate) fn is_foreign(&self) -> bool
        ensures { (request : Request) → request.method ≡ span_bytes self.now.bytes.now self.now.spans.method
            → request.fields ≡ map (header_bytes self.now.bytes.now) (take self.now.spans.headers self.now.headers.now)
            → (IsTrue result ↔ IsForeign request) }
    {
        if are_foreign(self.values(b"host")) {
            return true;
        }
        if self.is_post() {
            return self.has(b"origin") || self.has(b"sec-fetch-site");
        }
        false
    }

    /// Who makes the request, where it says so; or that it says so in no form.
    pub(crate) fn requester(
        &self,
        alloc: Global,
    ) -> Result<Result<Option<String>, Rejection>, AllocError>
        ensures { (request : Request) → request.method ≡ span_bytes self.now.bytes.now self.now.spans.method
            → request.fields ≡ map (header_bytes self.now.bytes.now) (take self.now.spans.headers self.now.headers.now)
            → IfOk result (λ told. MatchResult told (λ by. IsBy request (option_map string_bytes by)) (λ test. (test ≡ Rejection.Misnamed) × IsMisnamed request)) }
    {
        if !self.is_post() {
            return Ok(Ok(None));
        }
        let value = match self.values(b"plandesk-by") {
            Values::Absent => return Ok(Ok(None)),
            Values::Single(value) => value,
            Values::Several => return Ok(Err(Rejection::Misnamed)),
        };
        match requester_of(alloc, value)? {
            Some(by) => Ok(Ok(Some(by))),
            None => Ok(Err(Rejection::Misnamed)),
        }
    }

    /// The length that is told of the body, at most so many bytes, or the first test of it that fails.
    pub(crate) fn body_length(&self, most: usize) -> Result<usize, Rejection>
        ensures { (request : Request) → request.fields ≡ map (header_bytes self.now.bytes.now) (take self.now.spans.headers self.now.headers.now)
            → SendsBody request → MatchResult result (HasGoodLengthIn most request) (FailsIn most request) }
    {
        let codings = self.values(b"transfer-encoding");
        let lengths = self.values(b"content-length");
        length_told(codings, lengths, most)
    }
}

impl<'b> Values<'b> {
    // Whether there are none.
    fn are_absent(self) -> bool
        ensures { (values : List (List ℕ)) → AreValues values self.entry → (IsTrue result ↔ (values ≡ [])) }
    {
        match self {
            Values::Absent => true,
            Values::Single(_) | Values::Several => false,
        }
    }

    /// These values, and one more.
    fn with(self, value: &'b [u8]) -> Values<'b>
        ensures { (values : List (List ℕ)) → AreValues values self.entry → AreValues (values ++ value.now ∷ []) result }
    {
        match self {
            Values::Absent => Values::Single(value),
            Values::Single(_) | Values::Several => Values::Several,
        }
    }
}

/// Whether a field has this name, whatever the case of its letters.
fn is_named(bytes: &[u8], header: HeaderSpan, name: &[u8]) -> bool
    requires { IsHeaderWithin (length bytes.now) header }
    ensures { result ≡ has_name name.now (header_bytes bytes.now header) }
{
    header.name.of(bytes).eq_ignore_ascii_case(name)
}

/// The values of the fields of a name.
fn values_of<'b>(bytes: &'b [u8], headers: &[HeaderSpan], name: &[u8]) -> Values<'b>
    requires { All (IsHeaderWithin (length bytes.now)) headers.now }
    ensures { AreValues (named_values name.now (map (header_bytes bytes.now) headers.now)) result }
{
    let mut values = Values::Absent;
    for header in headers {
        if is_named(bytes, *header, name) {
            values = values.with(header.value.of(bytes));
        }
    }
    values
}

/// The most digits of a body's length.
const MOST_LENGTH_DIGITS: usize = 9;

/// Whether a value is one to nine decimal digits.
fn is_length(value: &[u8]) -> bool
    ensures { IsTrue result ↔ IsLengthText value.now }
{
    !value.is_empty()
        && value.len() <= MOST_LENGTH_DIGITS
        && value.iter().all(|digit| *digit >= b'0' && *digit <= b'9')
}

/// The number that one to nine digits tell.
fn length_of(value: &[u8]) -> Option<usize>
    ensures { MatchOption result ((n : ℕ) → ¬ TellsLength value.now n) (TellsLength value.now) }
{
    if !is_length(value) {
        return None;
    }
    let Ok(text) = std::str::from_utf8(value) else {
        return None;
    };
    text.parse().ok()
}

/// The length of a body, of which these codings and lengths are told, or the first test of it that fails.
fn length_told(codings: Values<'_>, lengths: Values<'_>, most: usize) -> Result<usize, Rejection>
    ensures { (request : Request) → AreValues (codings_of request) codings.entry → AreValues (lengths_of request) lengths.entry
        → SendsBody request → MatchResult result (HasGoodLengthIn most request) (FailsIn most request) }
{
    match codings {
        Values::Absent => {}
        Values::Single(_) | Values::Several => return Err(Rejection::Coded),
    }
    let value = match lengths {
        Values::Absent => return Err(Rejection::NoLength),
        Values::Single(value) => value,
        Values::Several => return Err(Rejection::BadLength),
    };
    match length_of(value) {
        None => Err(Rejection::BadLength),
        Some(length) if length > most => Err(Rejection::TooLong),
        Some(length) => Ok(length),
    }
}
