// What a reply tells, and its bytes.
ghost use Rattle.std.specs.Prelude.{◌≡◌, IfOk};
ghost use Rattle.serde_json.specs.Written.{compact_text};
ghost use Rattle.tracker_http.specs.Told.{status_of_refusal, status_of, body_of, reply_of};

use http_messages::{Status, reply_bytes};
use plan_basics::Refusal;
use plan_records::Reply;
use request_json::{OccurrenceRow, ReadyRow, fault_text, occurrences_text, ready_text, reply_text};
use std::alloc::{AllocError, Global};

/// What a reply tells.
#[derive(Drop)]
pub enum Told {
    /// The desk's answer to a request.
    Answer(Reply),
    /// What is ready on a workstation.
    Ready(Vec<ReadyRow>),
    /// The occurrences of the plan.
    Occurrences(Vec<OccurrenceRow>),
    /// A test that the request fails has this status.
    Fault(Status),
}

// The request's own refusals part from those that say that the desk can't answer.
fn refusal_status(refusal: Refusal) -> Status
    ensures { result ≡ status_of_refusal refusal }
{
    if refusal.number() < 25 {
        Status::Conflict
    } else {
        Status::ServiceUnavailable
    }
}

impl Told {
    /// The status of the reply.
    pub fn status(&self) -> Status
        ensures { result ≡ status_of self.now }
    {
        match self {
            Told::Answer(Reply::Refused(refusal)) => refusal_status(*refusal),
            Told::Answer(Reply::Accepted { .. }) | Told::Ready(_) | Told::Occurrences(_) =>
                Status::Success,
            Told::Fault(status) => *status,
        }
    }

    /// The body of the reply, which is JSON. It fails for want of memory only.
    pub fn body(&self, alloc: Global) -> Result<Vec<u8>, AllocError>
        ensures { IfOk result (λ text. text.items ≡ compact_text (body_of self.now)) }
    {
        match self {
            Told::Answer(reply) => reply_text(alloc, reply),
            Told::Ready(rows) => ready_text(alloc, rows),
            Told::Occurrences(rows) => occurrences_text(alloc, rows),
            Told::Fault(status) => fault_text(alloc, status.code()),
        }
    }

    /// The bytes of the reply. It fails for want of memory only.
    pub fn reply(&self, alloc: Global) -> Result<Vec<u8>, AllocError>
        ensures { IfOk result (λ bytes. bytes.items ≡ reply_of self.now) }
    {
        reply_bytes(alloc, self.status(), &self.body(alloc)?)
    }
}
