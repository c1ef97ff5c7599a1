// What people have to do of operations, by what a forecast tells.
ghost use Rattle.std.specs.Prelude.{◌≡◌, IfOk, filter_map};
ghost use Rattle.forecast_texts.specs.Hands.{again, by_hand, hands, to_start, work};

use plan_basics::{Attr, Moment, OpKey, WsName};
use plan_outlooks::{OperationOutlook, Outlooks, Standing, Standstill};
use std::alloc::{AllocError, Global};

/// What a person has to do.
#[derive(Clone, Copy)]
pub enum Deed {
    /// Start it, and report that.
    Start,
    /// Start it again, since it is interrupted.
    StartAgain,
    /// Report that it is complete.
    Report,
}

/// What a person has to do of an operation.
#[derive(Clone, Copy)]
pub struct ByHand {
    pub key: OpKey,
    pub workstation: WsName,
    pub deed: Deed,
    /// When it may be started, or when it is to be complete; none where it is to be started again, or isn't complete by the end of the
    /// forecast.
    pub at: Option<Moment>,
    /// In minutes from 1972-01-01T00:00; it may lie before that.
    pub latest: i64,
    /// By how many minutes it begins after its latest start, if it is known to.
    pub late: Option<u64>,
}

// This is to be done of an operation that begins or is going, then.
fn work(row: &OperationOutlook, deed: Deed, at: Option<Moment>) -> ByHand
    ensures { result ≡ work row.now deed at }
{
    ByHand {
        key: row.key,
        workstation: row.workstation,
        deed,
        at,
        latest: row.latest,
        late: row.late,
    }
}

// To start an operation where starts are reported, unless it is going.
fn to_start(row: &OperationOutlook) -> Option<ByHand>
    ensures { result ≡ to_start row.now }
{
    if row.is_going {
        return None;
    }
    Some(work(row, Deed::Start, Some(row.begin)))
}

// What a person has to do of an operation that begins or is going, if anything.
fn by_hand(row: &OperationOutlook) -> Option<ByHand>
    ensures { result ≡ by_hand row.now }
{
    match row.attribute {
        Attr::StartAndCompletion => to_start(row),
        Attr::CompletionOnly => Some(work(row, Deed::Report, row.end)),
        Attr::Automatic => None,
        Attr::Nonreporting => None,
    }
}

// What a person has to do of an operation that doesn't begin, if anything.
fn again(row: &Standstill) -> Option<ByHand>
    ensures { result ≡ again row.now }
{
    match row.standing {
        Standing::Interrupted => Some(ByHand {
            key: row.key,
            workstation: row.workstation,
            deed: Deed::StartAgain,
            at: None,
            latest: row.latest,
            late: None,
        }),
        _ => None,
    }
}

// What is to be started again, of operations that don't begin.
fn all_again(alloc: Global, rows: &[Standstill]) -> Result<Vec<ByHand>, AllocError>
    ensures { IfOk result (λ found. found.items ≡ filter_map again rows.now) }
{
    rows.iter().filter_map(|row| again(row)).collect(alloc)
}

// What people have to do of operations that begin or are going.
fn all_by_hand(alloc: Global, rows: &[OperationOutlook]) -> Result<Vec<ByHand>, AllocError>
    ensures { IfOk result (λ found. found.items ≡ filter_map by_hand rows.now) }
{
    rows.iter().filter_map(|row| by_hand(row)).collect(alloc)
}

/// All that people have to do, what is to be started again first. It fails for want of memory only.
pub fn work_by_hand(alloc: Global, told: &Outlooks) -> Result<Vec<ByHand>, AllocError>
    ensures { IfOk result (λ rows. rows.items ≡ hands told.now) }
{
    let mut rows = all_again(alloc, &told.standstills)?;
    let mut more = all_by_hand(alloc, &told.operations)?;
    rows.append(&mut more)?;
    Ok(rows)
}
