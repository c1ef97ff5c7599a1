// What stands in the way of a request.
ghost use Rattle.std.specs.Prelude.{◌≡◌, ◌⊎◌, ℕ, ◌+◌, ◌≤◌, true, Some, None, IsSome, IfErr, OnOk};
ghost use Rattle.plan_basics.specs.Refusals.{IsLeastRefusal, NoneRefuses};
ghost use Rattle.plan_basics.specs.declared.keys.OpKey.{OpKey as OpKeyValue};
ghost use Rattle.plan_checks.specs.Commands.{Extends};
ghost use Rattle.plan_records.specs.Changes.{operation_of};
ghost use Rattle.plan_records.specs.Acceptance.{MayBeDone, MayBeEnded, MayBeInterrupted, MayBeUndecided, NeedsPlan};
ghost use Rattle.plan_checks.specs.Bars.{FailsAt, MayBeStartedAt, MeetsAll};
ghost use Rattle.derived_figures.specs.DerivedRefs.{AreDerivedOf};
ghost use Rattle.derived_figures.specs.Reports.{IsReported};
ghost use Rattle.plan_checks.specs.Loads.{MayBeLoadedWhere};
ghost use Rattle.plan_model.specs.Holdings.{takes};
ghost use Rattle.plan_records.specs.declared.What.{What};

use super::additions::check_added;
use super::commands::{
    check_available, check_completed, check_deleted, check_flagged, check_open_by, check_rerun,
};
use super::dependencies::check_paired;
use derived_figures::{
    CountedRecords, DerivedRefs, Outline, ReportedOperation, SeenOperation, check_start,
};
use plan_basics::{Attr, Moment, OpKey, Refusal};
use plan_drafts::PlanDraft;
use plan_records::What;
use status_rules::{Mark, Status};
use std::alloc::Global;

// On an automatic workstation a start may be reported of what is named.
fn check_started_on_automatic(reported: &ReportedOperation<'_>) -> Result<(), Refusal>
    requires { reported.now.attribute ≡ Attr.Automatic }
    ensures ok { (m : ℕ) → OnOk result (MeetsAll reported.now (MayBeStartedAt reported.now m)) }
    ensures refused { (m : ℕ) → IfErr result (FailsAt reported.now (MayBeStartedAt reported.now m)) }
{
    let operation = reported.operation;
    if operation.mark == Mark::Named {
        Ok(())
    } else {
        Err(Refusal::WrongStatus)
    }
}

// What stands in the way of a start: on an automatic workstation one may be reported of what is named; where starts are
// reported, of what is ready or interrupted, where its workstation and the special resources that it needs are free for it.
fn check_started(
    outline: &Outline<'_>,
    key: &OpKey,
    reported: &ReportedOperation<'_>,
    at: Moment,
) -> Result<(), Refusal>
    requires { IsReported outline.now key.now reported.now }
    ensures ok { OnOk result (NoneRefuses (MayBeStartedAt reported.now at outline.now key.now)) }
    ensures refused { IfErr result (λ r. (r ≡ Refusal.Memory) ⊎ IsLeastRefusal (MayBeStartedAt reported.now at outline.now key.now) r) }
{
    match reported.attribute {
        Attr::Automatic => check_started_on_automatic(reported),
        Attr::StartAndCompletion if !reported.status.is_startable() => Err(Refusal::WrongStatus),
        Attr::StartAndCompletion => {
            let operation = reported.operation;
            let taken = outline.given_out_at(operation);
            let uncounted = outline.uncounted();
            let seen = SeenOperation {
                key,
                operation,
                uncounted,
            };
            check_start(&seen, reported.place, &taken, outline.holdings(), at)
        }
        Attr::CompletionOnly | Attr::Nonreporting => Err(Refusal::WrongWorkstation),
    }
}

// Where starts are reported, an end or an error may be reported of what is started or undecided.
fn check_ended_after_start(reported: &ReportedOperation<'_>) -> Result<(), Refusal>
    requires { takes (Some reported.now.attribute) ≡ true }
    ensures ok { OnOk result (MeetsAll reported.now (λ P o. MayBeEnded P o reported.now.operation.now (Some reported.now.attribute))) }
    ensures refused { IfErr result (FailsAt reported.now (λ P o. MayBeEnded P o reported.now.operation.now (Some reported.now.attribute))) }
{
    if reported.status.holds_server() {
        Ok(())
    } else {
        Err(Refusal::WrongStatus)
    }
}

// Where only ends are reported, an end or an error may be reported of what is ready and not held.
fn check_ended_without_start(reported: &ReportedOperation<'_>) -> Result<(), Refusal>
    requires { reported.now.attribute ≡ Attr.CompletionOnly }
    ensures ok { OnOk result (MeetsAll reported.now (λ P o. MayBeEnded P o reported.now.operation.now (Some reported.now.attribute))) }
    ensures refused { IfErr result (FailsAt reported.now (λ P o. MayBeEnded P o reported.now.operation.now (Some reported.now.attribute))) }
{
    let operation = reported.operation;
    if !reported.status.is_ready() {
        Err(Refusal::WrongStatus)
    } else if operation.held {
        Err(Refusal::Held)
    } else {
        Ok(())
    }
}

// What stands in the way of an end or an error.
fn check_ended(reported: &ReportedOperation<'_>) -> Result<(), Refusal>
    ensures ok { OnOk result (MeetsAll reported.now (λ P o. MayBeEnded P o reported.now.operation.now (Some reported.now.attribute))) }
    ensures refused { IfErr result (FailsAt reported.now (λ P o. MayBeEnded P o reported.now.operation.now (Some reported.now.attribute))) }
{
    match reported.attribute {
        Attr::Automatic | Attr::StartAndCompletion => check_ended_after_start(reported),
        Attr::CompletionOnly => check_ended_without_start(reported),
        Attr::Nonreporting => Err(Refusal::WrongWorkstation),
    }
}

// An interruption may be reported of what is started where starts are reported.
fn check_interrupted(reported: &ReportedOperation<'_>) -> Result<(), Refusal>
    ensures ok { OnOk result (MeetsAll reported.now (λ P o. MayBeInterrupted P o reported.now.operation.now)) }
    ensures refused { IfErr result (FailsAt reported.now (λ P o. MayBeInterrupted P o reported.now.operation.now)) }
{
    if reported.status != Status::Started {
        Err(Refusal::WrongStatus)
    } else if reported.attribute != Attr::StartAndCompletion {
        Err(Refusal::WrongWorkstation)
    } else {
        Ok(())
    }
}

// An unknown outcome may be reported of what is started.
fn check_undecided(reported: &ReportedOperation<'_>) -> Result<(), Refusal>
    ensures ok { OnOk result (MeetsAll reported.now MayBeUndecided) }
    ensures refused { IfErr result (FailsAt reported.now MayBeUndecided) }
{
    if reported.status == Status::Started {
        Ok(())
    } else {
        Err(Refusal::WrongStatus)
    }
}

// What stands in the way of a report or a command, where this is reported of its operation.
fn check_reported(
    alloc: Global,
    outline: &Outline<'_>,
    reported: &ReportedOperation<'_>,
    what: &What,
    at: Moment,
) -> Result<(), Refusal>
    requires operation { IsSome (operation_of what.now) }
    requires reported { (o : OpKeyValue) → operation_of what.now ≡ Some o → IsReported outline.now o reported.now }
    ensures ok { OnOk result (NoneRefuses (MayBeDone outline.now at what.now)) }
    ensures refused { IfErr result (λ r. (r ≡ Refusal.Memory) ⊎ IsLeastRefusal (MayBeDone outline.now at what.now) r) }
{
    match what {
        What::Started(key) => check_started(outline, key, reported, at),
        What::Ended(_) | What::Error(_, _) => check_ended(reported),
        What::Interrupted(_) => check_interrupted(reported),
        What::Unknown(_) => check_undecided(reported),
        What::Hold(_) | What::Release(_) | What::Nop(_) | What::Unnop(_) => check_flagged(reported),
        What::Rerun(key) => check_rerun(alloc, outline, key, reported),
        What::Complete(_) => check_completed(reported),
        What::Load(_)
        | What::Tick
        | What::DeleteOccurrence(_)
        | What::AddOccurrence(_)
        | What::Extend(_)
        | What::AddDependency(_, _)
        | What::SetAvailable(_, _)
        | What::ReplaceIntervals(_, _) => unreachable!(),
    }
}

// What stands in the way of a report or a command, which takes one look: at its operation.
#[tactic(auto, using(crate::proofs::Reporting::unknown_operation))]
fn check_operation(
    alloc: Global,
    records: &mut CountedRecords,
    derived: DerivedRefs<'_>,
    key: &OpKey,
    what: &What,
    at: Moment,
) -> Result<(), Refusal>
    requires derived { AreDerivedOf records.old.contents derived }
    requires operation { operation_of what.now ≡ Some key.now }
    ensures ok { OnOk result (NoneRefuses (MayBeDone records.old.contents at what.now)) }
    ensures refused { IfErr result (λ r. (r ≡ Refusal.Memory) ⊎ IsLeastRefusal (MayBeDone records.old.contents at what.now) r) }
    ensures contents { records.new.contents ≡ records.old.contents }
    ensures fewest { records.old.looks ≤ records.new.looks }
    ensures most { records.new.looks ≤ records.old.looks + 1 }
{
    let place = records
        .uncounted()
        .operation_place(key)
        .ok_or(Refusal::UnknownOperation)?;
    let seen = records.see(place);
    let outline = Outline::of(seen.uncounted, derived);
    let reported = outline.reported(seen.key, seen.operation, place);
    check_reported(alloc, &outline, &reported, what, at)
}

// What stands in the way of a request that is about no one operation, which takes no look.
fn check_unseen(alloc: Global, outline: &Outline<'_>, what: &What) -> Result<(), Refusal>
    requires needs { NeedsPlan what.now }
    requires stays { ¬ Extends what.now }
    requires none { operation_of what.now ≡ None }
    ensures ok { (at : ℕ) → OnOk result (NoneRefuses (MayBeDone outline.now at what.now)) }
    ensures refused { (at : ℕ) → IfErr result (λ r. (r ≡ Refusal.Memory) ⊎ IsLeastRefusal (MayBeDone outline.now at what.now) r) }
{
    match what {
        What::Tick => Ok(()),
        What::DeleteOccurrence(key) => check_deleted(outline, key),
        What::AddOccurrence(addition) => {
            let addition = addition.as_ref().ok_or(Refusal::BadPlan)?;
            check_added(alloc, &outline.known(), addition.parts())
        }
        What::AddDependency(predecessor, successor) => {
            check_paired(alloc, outline, predecessor, successor)
        }
        What::SetAvailable(name, _) => check_available(outline, name),
        What::ReplaceIntervals(name, intervals) => check_open_by(alloc, outline, name, intervals),
        _ => unreachable!(),
    }
}

/// What stands in the way of a request other than a load or an extension that is made at a moment, but for that moment; or no memory
/// is found to decide it. It takes a look at the operation of which it reports, or that it commands, and at no other.
pub fn check_request(
    alloc: Global,
    records: &mut CountedRecords,
    derived: DerivedRefs<'_>,
    what: &What,
    at: Moment,
) -> Result<(), Refusal>
    requires derived { AreDerivedOf records.old.contents derived }
    requires needs { NeedsPlan what.now }
    requires stays { ¬ Extends what.now }
    ensures ok { OnOk result (NoneRefuses (MayBeDone records.old.contents at what.now)) }
    ensures refused { IfErr result (λ r. (r ≡ Refusal.Memory) ⊎ IsLeastRefusal (MayBeDone records.old.contents at what.now) r) }
    ensures contents { records.new.contents ≡ records.old.contents }
    ensures fewest { records.old.looks ≤ records.new.looks }
    ensures most { records.new.looks ≤ records.old.looks + 1 }
{
    match what.operation() {
        Some(key) => check_operation(alloc, records, derived, &key, what, at),
        None => check_unseen(alloc, &Outline::of(records.uncounted(), derived), what),
    }
}

/// What stands in the way of a load, but for its moment: a plan that is loaded, or a text that denotes none.
pub fn check_load(loaded: bool, draft: &Option<PlanDraft>) -> Result<(), Refusal>
    ensures ok { OnOk result (NoneRefuses (MayBeLoadedWhere loaded draft.now)) }
    ensures refused { IfErr result (IsLeastRefusal (MayBeLoadedWhere loaded draft.now)) }
{
    if loaded {
        Err(Refusal::Loaded)
    } else if draft.is_none() {
        Err(Refusal::BadPlan)
    } else {
        Ok(())
    }
}
