// Reasons that follow from the operation's own status, flags and not-before.
ghost use Rattle.std.specs.Prelude.{◌≡◌, ℕ, true, Some};
ghost use Rattle.std.specs.Option.{is_none};
ghost use Rattle.plan_basics.specs.declared.keys.OpKey.{OpKey};
ghost use Rattle.plan_model.specs.Contents.{Contents};
ghost use Rattle.plan_model.specs.Holdings.{takes};
ghost use Rattle.plan_model.specs.Valid.{IsValid};
ghost use Rattle.plan_reasons.specs.Parts.{IsOfKind};
ghost use Rattle.plan_reasons.specs.Places.{goes_on_from};
ghost use Rattle.plan_reasons.specs.Reasons.{beginning_by, needs_start};
ghost use Rattle.plan_core.specs.derived_figures.specs.Reports.{IsReported};
ghost use Rattle.status_rules.specs.Table.{marked_status};

use super::reasons::{Beginning, Reason, Rest};
use plan_basics::{Attr, Moment};
use plan_core::ReportedOperation;
use plan_model::OperationRecord;
use status_rules::{Mark, Status};

// Whether an operation of this status goes on: it waits, is arriving or ready, or may be started again where starts are
// reported.
fn goes_on_from(status: Status, attribute: Attr) -> bool
    ensures { result ≡ goes_on_from status attribute }
{
    match status {
        Status::Interrupted => matches!(attribute, Attr::StartAndCompletion),
        _ => status.is_waiting_or_ready(),
    }
}

// What a mark tells of a start.
fn beginning_by(mark: &Mark) -> Beginning
    ensures { result ≡ beginning_by mark.now }
{
    match mark {
        Mark::Named => Beginning::Named,
        Mark::Running => Beginning::Reported,
        _ => Beginning::NotStarted,
    }
}

// What the mark of an operation tells of a start.
fn beginning_of(operation: &OperationRecord) -> Beginning
    ensures { result ≡ beginning_by operation.now.mark }
{
    beginning_by(&operation.mark)
}

/// The reason that its status is none from which it goes on.
pub fn at_rest(reported: &ReportedOperation<'_>) -> Option<Reason>
    ensures { (P : Contents) → IsValid P → (o : OpKey) (m : ℕ) → IsReported P o reported.now → IsOfKind P o reported.now.operation.now m 0 result }
{
    if goes_on_from(reported.status, reported.attribute) {
        None
    } else {
        Some(Reason::AtRest(Rest {
            status: reported.status,
            beginning: beginning_of(reported.operation),
        }))
    }
}

/// The reason that it is held.
pub fn held(operation: &OperationRecord) -> Option<Reason>
    ensures { (P : Contents) (o : OpKey) (m : ℕ) → IsOfKind P o operation.now m 2 result }
{
    if operation.held {
        Some(Reason::Held)
    } else {
        None
    }
}

/// The reason that its not-before is still to come.
pub fn too_early(operation: &OperationRecord, at: Moment) -> Option<Reason>
    ensures { (P : Contents) (o : OpKey) → needs_start P operation.now ≡ true → IsOfKind P o operation.now at 3 result }
{
    if at.minute() < operation.not_before.minute() {
        Some(Reason::TooEarly(operation.not_before))
    } else {
        None
    }
}

// Whether nothing was reported of an operation, nor decided about it.
fn is_unmarked(mark: &Mark) -> bool
    ensures { result ≡ is_none (marked_status mark.now) }
{
    matches!(mark, Mark::Unmarked)
}

// Whether operations take anything of a workstation that reports so.
fn takes(attribute: Attr) -> bool
    ensures { result ≡ takes (Some attribute) }
{
    attribute.knows_starts()
}

/// Whether an operation goes on by a start, with a server and its resources.
pub fn needs_start(reported: &ReportedOperation<'_>) -> bool
    ensures { (P : Contents) (o : OpKey) → IsReported P o reported.now → result ≡ needs_start P reported.now.operation.now }
{
    let operation = reported.operation;
    takes(reported.attribute) && !(operation.nop && is_unmarked(&operation.mark))
}
