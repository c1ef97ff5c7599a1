// Parts of a text.
ghost use Rattle.std.specs.Prelude.{◌≡◌, ◌≢◌, ◌<◌, ◌==◌, ◌++◌, List, ℕ, length, IfOk, MatchOption};
ghost use Rattle.std.specs.List.{before_first};
ghost use Rattle.percent_encoding.specs.Percent.{percent_decode as unescaped};
ghost use Rattle.http_messages.specs.Queries.{after_first};

use percent_encoding::percent_decode;
use std::alloc::{AllocError, Global};

/// A text up to the first of these bytes.
pub(crate) fn before(text: &[u8], end: u8) -> &[u8]
    ensures { result.now ≡ before_first (λ b. b == end) text.now }
{
    match text.iter().position(|byte| *byte == end) {
        Some(at) => &text[..at],
        None => text,
    }
}

/// What a text has after the first of these bytes; nothing where it has none.
pub(crate) fn after(text: &[u8], end: u8) -> &[u8]
    ensures { result.now ≡ after_first (λ b. b == end) text.now }
{
    let at = before(text, end).len();
    if at < text.len() {
        &text[at + 1..]
    } else {
        &text[text.len()..]
    }
}

/// A text without its escapes.
pub(crate) fn unescaped(alloc: Global, text: &[u8]) -> Result<Vec<u8>, AllocError>
    ensures { IfOk result (λ bytes. bytes.items ≡ unescaped text.now) }
{
    let mut bytes = Vec::new(alloc);
    percent_decode(text).append_to(&mut bytes)?;
    Ok(bytes)
}

/// What a path has after this, if it begins with it and goes on.
pub(crate) fn rest_after<'a>(path: &'a [u8], before: &[u8]) -> Option<&'a [u8]>
    ensures { MatchOption result ((rest : List ℕ) → 0 < length rest → path.now ≢ before.now ++ rest) (λ rest. (0 < length rest.now) × (path.now ≡ before.now ++ rest.now)) }
{
    let rest = match path.strip_prefix(before) {
        Some(rest) => rest,
        None => return None,
    };
    if rest.is_empty() {
        return None;
    }
    Some(rest)
}
