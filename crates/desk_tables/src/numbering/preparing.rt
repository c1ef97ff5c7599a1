// What a numbered request is told before anything is written.
ghost use Rattle.std.specs.Prelude.{◌≡◌, ◌⊎◌, ◌≤◌, ℕ, IfErr, IfOk};
ghost use Rattle.std.specs.FinMap.{get};
ghost use Rattle.plan_basics.specs.Refusals.{IsLeastRefusal};
ghost use Rattle.plan_basics.specs.declared.limits.TheConstants.{GREATEST_REQUEST_NUMBER};
ghost use Rattle.plan_core.specs.Provided.{StartsAreProvided};
ghost use Rattle.plan_core.specs.State.{plan_after};
ghost use Rattle.plan_model.specs.Plan.{IsSoundPlan};
ghost use Rattle.plan_records.specs.Answer.{accepted, refused};
ghost use Rattle.plan_records.specs.Step.{AnswersAgain, HasReceiptRoom, IsNumbered, Numbered, NumberedMayBeAccepted, NumberedStep as NumberedStepOf, Receipts as LastReceipts};
ghost use Rattle.plan_records.specs.declared.Request.{Request};
ghost use Rattle.tracker_receipts.specs.Judging.{numbered_by};
ghost use Rattle.tracker_receipts.specs.Stored.{columns_of};
ghost use Rattle.desk_tables.specs.Steps.{IfAgain, IfNew, IsNumberedStepFor};

use super::steps::{NumberedOutcome, NumberedStep};
use plan_basics::{OpKey, Refusal, TrackerName};
use plan_core::Plan;
use plan_records::Request;
use std::alloc::{AllocError, Global};
use tracker_receipts::{Judged, Receipt, ReceiptRow, Receipts};

/// What a tracker's request of this number, read from this text, leads to, if it isn't refused: at first it is told by
/// its number and its text, whatever it asks; a new one is prepared over the plan, with its receipt. All memory is
/// taken here, and the plan stays as it is.
///
/// It is refused as `Old`, `Gap` or `Reused` by its number and its text; a new one for the least number that applies,
/// where `Limit` applies too if there is no room for its receipt; and as `Memory` for want of memory.
pub fn prepare_numbered(
    plan: &mut Plan,
    receipts: &Receipts,
    tracker: &TrackerName,
    number: u64,
    text: &[u8],
    request: &Request,
) -> Result<NumberedOutcome, Refusal>
    ensures unchanged { plan.new ≡ plan.old }
    ensures again { IfOk result (IfAgain (λ named. AnswersAgain (get receipts.now tracker.now) (numbered_by tracker.now number text.now request.now) (accepted named))) }
    ensures new { IfOk result (IfNew (IsNumberedStepFor plan.old receipts.now (numbered_by tracker.now number text.now request.now))) }
    ensures starts { IfOk result (IfNew (λ p. StartsAreProvided plan.old.plan request.now (accepted p.prepared.named) (plan_after plan.old p.prepared))) }
    ensures refused { IfErr result (λ r. (r ≡ Refusal.Memory) ⊎ NumberedStepOf plan.old.plan receipts.now (numbered_by tracker.now number text.now request.now) (refused r) plan.old.plan receipts.now) }
{
    let alloc = plan.alloc();
    match receipts.judge(tracker, number, text) {
        Judged::New => {}
        Judged::Again(named) => return Ok(NumberedOutcome::Again(Vec::from_slice(alloc, named)?)),
        Judged::Refused(refusal) => return Err(refusal),
    }
    read_for_proof(plan, tracker, text);
    if !receipts.has_room(tracker, number, text) {
        return Err(refused_without_room(plan, request));
    }
    let prepared = plan.prepare(request)?;
    let (receipt, row) = kept(alloc, tracker, number, text, prepared.named())?;
    Ok(NumberedOutcome::New(NumberedStep {
        tracker: *tracker,
        prepared,
        receipt,
        row,
    }))
}

// The plan, the tracker's name and the text are looked at for the proof alone, which learns that they are sound and
// legal.
fn read_for_proof(plan: &Plan, tracker: &TrackerName, text: &[u8])
    ensures sound { IsSoundPlan plan.now.plan }
    ensures legal { (number : ℕ) → (q : Request) → IsNumbered (numbered_by tracker.now number text.now q) }
{
    let _ = plan.clock();
    let _ = tracker.as_bytes();
    let _ = text.len();
}

// What a request is refused for where there is no room for its receipt: a lower number that applies, else `Limit`.
fn refused_without_room(plan: &mut Plan, request: &Request) -> Refusal
    ensures unchanged { plan.new ≡ plan.old }
    ensures least { (result ≡ Refusal.Memory) ⊎ ((T : LastReceipts) → (n : Numbered) → n.request ≡ request.now → ¬ HasReceiptRoom T n → IsLeastRefusal (NumberedMayBeAccepted plan.old.plan T n) result) }
{
    let Err(refusal) = plan.prepare(request) else {
        return Refusal::Limit;
    };
    if refusal == Refusal::Memory || refusal.number() < Refusal::Limit.number() {
        return refusal;
    }
    Refusal::Limit
}

// The receipt of a tracker's request that named these keys, and the row of it.
fn kept(
    alloc: Global,
    tracker: &TrackerName,
    number: u64,
    text: &[u8],
    named: &[OpKey],
) -> Result<(Receipt, ReceiptRow), AllocError>
    requires { number ≤ GREATEST_REQUEST_NUMBER }
    ensures receipt { IfOk result (λ p. p.0 ≡ record { number = number; text = text.now; named = named.now }) }
    ensures row { IfOk result (λ p. p.1 ≡ columns_of tracker.now p.0) }
{
    let named = Vec::from_slice(alloc, named)?;
    let receipt = Receipt::new(number, Vec::from_slice(alloc, text)?, named);
    let row = ReceiptRow::of_receipt(alloc, tracker, &receipt)?;
    Ok((receipt, row))
}
