// The bytes of a reply.
ghost use Rattle.std.specs.Prelude.{◌≡◌, IfOk};
ghost use Rattle.http_messages.specs.Replies.{page_reply, reply, text_reply, typed_reply};

use crate::statuses::Status;
use std::alloc::{AllocError, Global};

// A whole reply: the status line, its fields and the body, which is of this type.
fn typed_bytes(
    alloc: Global,
    media: &str,
    status: Status,
    body: &[u8],
) -> Result<Vec<u8>, AllocError>
    ensures { IfOk result (λ bytes. bytes.items ≡ typed_reply media.now status body.now) }
{
    let (code, phrase, length) = (status.code(), status.phrase(), body.len());
    let allow = status.allow_line();
    let head = format!(in alloc;
        "HTTP/1.1 {code} {phrase}\r\nContent-Type: {media}\r\nContent-Length: {length}\r\nConnection: close\r\n{allow}\r\n"
    )?;
    let mut bytes = head.into_bytes();
    bytes.extend_from_slice(body)?;
    Ok(bytes)
}

/// A whole reply to a request: the status line, its fields and the body, which is JSON. It fails for want of memory only.
pub fn reply_bytes(alloc: Global, status: Status, body: &[u8]) -> Result<Vec<u8>, AllocError>
    ensures { IfOk result (λ bytes. bytes.items ≡ reply status body.now) }
{
    typed_bytes(alloc, "application/json", status, body)
}

/// A whole reply to a request that was accepted, whose body is text. It fails for want of memory only.
pub fn text_reply_bytes(alloc: Global, body: &[u8]) -> Result<Vec<u8>, AllocError>
    ensures { IfOk result (λ bytes. bytes.items ≡ text_reply body.now) }
{
    typed_bytes(alloc, "text/plain; charset=utf-8", Status::Success, body)
}

/// A whole reply to a request, whose body is a page of a browser. It fails for want of memory only.
pub fn page_reply_bytes(alloc: Global, status: Status, body: &[u8]) -> Result<Vec<u8>, AllocError>
    ensures { IfOk result (λ bytes. bytes.items ≡ page_reply status body.now) }
{
    typed_bytes(alloc, "text/html; charset=utf-8", status, body)
}
