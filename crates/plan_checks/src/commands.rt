// What stands in the way of an operator's command.
ghost use Rattle.std.specs.Prelude.{◌≡◌, ◌⊎◌, true, None, OnOk, IfOk, IfErr};
ghost use Rattle.std.specs.FinMap.{contains_key, get};
ghost use Rattle.plan_basics.specs.Refusals.{IsLeastRefusal, NoneRefuses};
ghost use Rattle.plan_basics.specs.declared.Refusal.{Refusal};
ghost use Rattle.plan_model.specs.Status.{HasOccurrenceStatus};
ghost use Rattle.plan_records.specs.Acceptance.{MayBeCompleted, MayBeDeleted, MayBeFlagged, MayBeOpenBy, MayBeRerun, MayBeSetAvailable};
ghost use Rattle.plan_checks.specs.Bars.{FailsAt, MeetsAll};
ghost use Rattle.derived_figures.specs.Reports.{IsReported};

use super::reach::reached_keys;
use super::under_way::{is_another_under_way, is_occurrence_under_way};
use derived_figures::{Outline, ReportedOperation};
use plan_basics::{Interval, OccKey, OpKey, Refusal, ResName, WsName};
use status_rules::OccStatus;
use std::alloc::Global;

/// A hold, a release, a NOP and its end may be commanded of what waits or is ready.
pub fn check_flagged(reported: &ReportedOperation<'_>) -> Result<(), Refusal>
    ensures ok { OnOk result (MeetsAll reported.now MayBeFlagged) }
    ensures refused { IfErr result (FailsAt reported.now MayBeFlagged) }
{
    if reported.status.is_waiting_or_ready() {
        Ok(())
    } else {
        Err(Refusal::WrongStatus)
    }
}

/// A completion may be commanded of what is ready, under way or in error, and not held.
pub fn check_completed(reported: &ReportedOperation<'_>) -> Result<(), Refusal>
    ensures ok { OnOk result (MeetsAll reported.now (λ P o. MayBeCompleted P o reported.now.operation.now)) }
    ensures refused { IfErr result (FailsAt reported.now (λ P o. MayBeCompleted P o reported.now.operation.now)) }
{
    let operation = reported.operation;
    if !reported.status.is_completable() {
        Err(Refusal::WrongStatus)
    } else if operation.held {
        Err(Refusal::Held)
    } else {
        Ok(())
    }
}

/// A rerun may be commanded of what is interrupted, complete, in error or undecided, where nothing else that it reaches is
/// under way.
pub fn check_rerun(
    alloc: Global,
    outline: &Outline<'_>,
    key: &OpKey,
    reported: &ReportedOperation<'_>,
) -> Result<(), Refusal>
    requires { IsReported outline.now key.now reported.now }
    ensures ok { OnOk result (NoneRefuses (MayBeRerun outline.now key.now)) }
    ensures refused { IfErr result (λ r. (r ≡ Refusal.Memory) ⊎ IsLeastRefusal (MayBeRerun outline.now key.now) r) }
{
    if !reported.status.is_rerunnable() {
        return Err(Refusal::WrongStatus);
    }
    let reached = reached_keys(alloc, outline, key)?;
    if is_another_under_way(outline, key, &reached) {
        Err(Refusal::Running)
    } else {
        Ok(())
    }
}

// The status of the occurrence of a key, if it is in the plan.
fn occurrence_status_of(outline: &Outline<'_>, occurrence: &OccKey) -> Result<OccStatus, Refusal>
    ensures known { OnOk result (contains_key outline.now.occurrences occurrence.now ≡ true) }
    ensures found { IfOk result (HasOccurrenceStatus outline.now occurrence.now) }
    ensures unknown { IfErr result (λ r. (r ≡ Refusal.UnknownOccurrence) × (get outline.now.occurrences occurrence.now ≡ None)) }
{
    outline
        .occurrence_status(occurrence)
        .ok_or(Refusal::UnknownOccurrence)
}

/// The deletion of an occurrence may be commanded where it isn't deleted, and none of its operations is under way.
pub fn check_deleted(outline: &Outline<'_>, occurrence: &OccKey) -> Result<(), Refusal>
    ensures ok { OnOk result (NoneRefuses (MayBeDeleted outline.now occurrence.now)) }
    ensures refused { IfErr result (IsLeastRefusal (MayBeDeleted outline.now occurrence.now)) }
{
    let status = occurrence_status_of(outline, occurrence)?;
    if status == OccStatus::Deleted {
        return Err(Refusal::WrongStatus);
    }
    if is_occurrence_under_way(outline, occurrence) {
        Err(Refusal::Running)
    } else {
        Ok(())
    }
}

/// Whether a special resource is available may be set for one in the plan.
pub fn check_available(outline: &Outline<'_>, name: &ResName) -> Result<(), Refusal>
    ensures ok { OnOk result (NoneRefuses (MayBeSetAvailable outline.now name.now)) }
    ensures refused { IfErr result (IsLeastRefusal (MayBeSetAvailable outline.now name.now)) }
{
    match outline.uncounted().resource(name) {
        Some(_) => Ok(()),
        None => Err(Refusal::UnknownResource),
    }
}

/// The open intervals may be replaced of a workstation in the plan: by no more than it may have, of which no two overlap.
pub fn check_open_by(
    alloc: Global,
    outline: &Outline<'_>,
    name: &WsName,
    intervals: &[Interval],
) -> Result<(), Refusal>
    ensures ok { OnOk result (NoneRefuses (MayBeOpenBy outline.now name.now intervals.now)) }
    ensures refused { IfErr result (λ r. (r ≡ Refusal.Memory) ⊎ IsLeastRefusal (MayBeOpenBy outline.now name.now intervals.now) r) }
{
    let uncounted = outline.uncounted();
    let workstation = uncounted
        .workstation(name)
        .ok_or(Refusal::UnknownWorkstation)?;
    let mut workstation = workstation.try_clone()?;
    workstation.replace_intervals(Vec::from_slice(alloc, intervals)?)
}
