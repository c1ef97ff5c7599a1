// Who makes a request.
ghost use Rattle.std.specs.Prelude.{◌≡◌, ◌↔◌, IfOk, IsTrue, MatchOption, option_map, string_bytes};
ghost use Rattle.http_messages.specs.Requesters.{IsRequesterText, is_requester_byte as is_requester_code};

use std::alloc::{AllocError, Global};

/// The most bytes by which a request says who makes it.
pub const MOST_REQUESTER_BYTES: usize = 64;

fn is_requester_byte(byte: u8) -> bool
    ensures { IsTrue result ↔ IsTrue (is_requester_code byte) }
{
    matches!(byte, b'a'..=b'z' | b'A'..=b'Z' | b'0'..=b'9' | b'.' | b'_' | b'@' | b'-')
}

// Whether a value may name a requester.
fn is_requester(value: &[u8]) -> bool
    ensures { IsTrue result ↔ IsRequesterText value.now }
{
    !value.is_empty()
        && value.len() <= MOST_REQUESTER_BYTES
        && value.iter().all(|byte| is_requester_byte(*byte))
}

/// The requester that a value names, if it is of that form.
pub(crate) fn requester_of(alloc: Global, value: &[u8]) -> Result<Option<String>, AllocError>
    ensures { IfOk result (λ found. MatchOption (option_map string_bytes found) (¬ IsRequesterText value.now) (λ text. (text ≡ value.now) × IsRequesterText value.now)) }
{
    if !is_requester(value) {
        return Ok(None);
    }
    let Ok(text) = std::str::from_utf8(value) else {
        return Ok(None);
    };
    Ok(Some(String::from_str(alloc, text)?))
}
