// What is shown of an operation and of an occurrence by its key, as a text or as a page of a browser.
ghost use Rattle.std.specs.Prelude.{◌≡◌, Err, IfOk, IsErr, MatchResult};
ghost use Rattle.plan_basics.specs.declared.Refusal.{Refusal};
ghost use Rattle.desk_serving.specs.Shown.{refused_as, shown_as, ShowsOperations, ShowsWhy};

use super::showing::{refusal_or, refused_shown};
use html_pages::look_page;
use http_messages::{Status, page_reply_bytes, text_reply_bytes};
use plan_basics::{OccKey, Refusal};
use plan_records::Reply;
use plan_reports::{Desk, Show, operation_typed, show_made, why_made};
use sqlite::Alter;
use std::alloc::{AllocError, Global};
use tracker_http::Told;

// The reply that tells a text: as it is, or as a page under a key, with or without rows. It fails for want of memory only.
fn text_as(
    alloc: Global,
    as_page: bool,
    key: &[u8],
    has_rows: bool,
    text: &[u8],
) -> Result<Vec<u8>, AllocError>
    ensures { IfOk result (λ output. output.items ≡ shown_as as_page key.now has_rows text.now) }
{
    if !as_page {
        return text_reply_bytes(alloc, text);
    }
    let page = look_page(alloc, key, has_rows, text)?;
    page_reply_bytes(alloc, Status::Success, &page)
}

// The reply that tells a refusal: as a value, or as a page by its name. It fails for want of memory only.
fn refusal_as(alloc: Global, as_page: bool, refusal: Refusal) -> Result<Vec<u8>, AllocError>
    ensures { IfOk result (λ output. output.items ≡ refused_as as_page refusal) }
{
    if !as_page {
        return refused_shown(alloc, refusal);
    }
    let name = refusal.name().as_bytes();
    let page = look_page(alloc, name, false, name)?;
    page_reply_bytes(alloc, Told::Answer(Reply::Refused(refusal)).status(), &page)
}

// The reply that tells a text, or why there is none. It fails for want of memory only.
fn made_as(
    alloc: Global,
    as_page: bool,
    key: &[u8],
    has_rows: bool,
    made: Result<Vec<u8>, Refusal>,
) -> Result<Vec<u8>, AllocError>
    ensures shown { IfOk result (λ output. MatchResult made (λ text. output.items ≡ shown_as as_page key.now has_rows text.items) (λ r. output.items ≡ refused_as as_page r)) }
    ensures memory { made ≡ Err Refusal.Memory → IsErr result }
{
    match made {
        Ok(text) => text_as(alloc, as_page, key, has_rows, &text),
        Err(Refusal::Memory) => Err(AllocError),
        Err(refusal) => refusal_as(alloc, as_page, refusal),
    }
}

/// Why the operation of this key, which may be no key, doesn't go on at the plan's clock.
pub fn why_shown<S: Alter + Drop>(
    alloc: Global,
    desk: &Desk<S>,
    key: &[u8],
    as_page: bool,
) -> Result<Vec<u8>, AllocError>
    ensures { IfOk result (λ output. ShowsWhy as_page key.now desk.now output.items) }
{
    let Some(operation) = operation_typed(key) else {
        return refusal_as(alloc, as_page, refusal_or(desk, Refusal::UnknownOperation));
    };
    let made = why_made(alloc, desk, &operation, desk.plan().clock());
    made_as(alloc, as_page, key, false, made)
}

/// The operations of the occurrence of this key, which may be no key.
pub fn operations_shown<S: Alter + Drop>(
    alloc: Global,
    desk: &Desk<S>,
    key: &[u8],
    as_page: bool,
) -> Result<Vec<u8>, AllocError>
    ensures { IfOk result (λ output. ShowsOperations as_page key.now desk.now output.items) }
{
    let Some(occurrence) = OccKey::from_text(key) else {
        return refusal_as(alloc, as_page, refusal_or(desk, Refusal::UnknownOccurrence));
    };
    let made = show_made(alloc, desk, &Show::Operations(occurrence));
    made_as(alloc, as_page, key, true, made)
}
