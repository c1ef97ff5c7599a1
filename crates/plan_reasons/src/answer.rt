// The whole answer why an operation doesn't go on.
ghost use Rattle.std.specs.Prelude.{◌≡◌, IfOk, IfErr, OnOk, MatchOption, Some};
ghost use Rattle.std.specs.FinMap.{get};
ghost use Rattle.plan_basics.specs.declared.Refusal.{Refusal};
ghost use Rattle.plan_basics.specs.declared.keys.OpKey.{OpKey as OpKeyValue};
ghost use Rattle.plan_model.specs.Contents.{IsInPlan};
ghost use Rattle.plan_reasons.specs.Parts.{GoesOn};
ghost use Rattle.plan_reasons.specs.Places.{IsAt};
ghost use Rattle.plan_reasons.specs.Whys.{AreReasons, IsFirstReason, IsWhy, first_of};
ghost use Rattle.plan_core.specs.derived_figures.specs.Reports.{IsReported};

use super::busy::{all_held, all_unavailable};
use super::lacking::{closed, lacks};
use super::lists::{note, note_all};
use super::other_holders::other_holders;
use super::predecessors::{read_for_proof, roots, waits};
use super::reasons::{OtherHolder, Reason, Supply, Unsatisfied};
use super::scarce::all_scarce;
use super::single::{at_rest, held, needs_start, too_early};
use plan_basics::{Moment, OpKey, Refusal};
use plan_core::{LoadedPlan, ReportedOperation, SoundContents};
use plan_model::OperationRecord;
use status_rules::Status;
use std::alloc::Global;
use workstations::Workstation;

/// Why an operation doesn't go on at a moment.
#[derive(Drop)]
pub struct Why {
    pub status: Status,
    /// The reasons, in the order of the lines that it has to meet: its status, its predecessors in key order, that it is
    /// held, its not-before, its workstation, servers, R1 and R2, special resources that aren't available, holders of
    /// special resources by name and then key, and special resources of which others leave too little.
    pub reasons: Vec<Reason>,
    /// The others that hold those special resources of which too little is left, by resource and then in key order.
    pub holders: Vec<OtherHolder>,
    /// The operations that hold the chain that it waits for, in key order.
    pub roots: Vec<Unsatisfied>,
}

// The workstation of an operation of the plan.
fn workstation_of<'a>(contents: &'a SoundContents, operation: &OperationRecord) -> &'a Workstation
    requires { (o : OpKeyValue) × (get contents.now.operations o ≡ Some operation.now) }
    ensures name { operation.now.workstation ≡ result.now.0 }
    ensures known { get contents.now.workstations operation.now.workstation ≡ Some result.now.1 }
{
    contents.workstation(&operation.workstation).unwrap()
}

// Notes what keeps an operation from a start, where it goes on by one. The error is always `Memory`.
fn note_start(
    alloc: Global,
    reasons: &mut Vec<Reason>,
    loaded: &LoadedPlan,
    key: &OpKey,
    reported: &ReportedOperation<'_>,
    at: Moment,
) -> Result<(), Refusal>
    requires { IsReported loaded.now key.now reported.now }
    ensures noted { OnOk result (GoesOn loaded.now key.now reported.now.operation.now at 3 11 reasons.old.items reasons.new.items) }
    ensures refused { IfErr result (λ r. r ≡ Refusal.Memory) }
{
    if !needs_start(reported) {
        return Ok(());
    }
    let operation = reported.operation;
    let contents = loaded.contents();
    let outline = loaded.outline();
    let taken = outline.given_out_at(operation);
    let holdings = outline.holdings();
    let workstation = workstation_of(contents, operation);
    note(reasons, too_early(operation, at))?;
    note(reasons, closed(workstation, at))?;
    note(
        reasons,
        lacks(workstation, operation, &taken, Supply::Servers, at),
    )?;
    note(
        reasons,
        lacks(workstation, operation, &taken, Supply::R1, at),
    )?;
    note(
        reasons,
        lacks(workstation, operation, &taken, Supply::R2, at),
    )?;
    note_all(reasons, all_unavailable(alloc, contents, operation)?)?;
    note_all(reasons, all_held(alloc, key, operation, holdings)?)?;
    note_all(
        reasons,
        all_scarce(alloc, contents, key, operation, holdings)?,
    )?;
    Ok(())
}

// All reasons why the operation at an index doesn't go on. The error is always `Memory`.
fn reasons_at(
    alloc: Global,
    loaded: &LoadedPlan,
    key: &OpKey,
    place: usize,
    at: Moment,
) -> Result<Vec<Reason>, Refusal>
    requires { IsAt loaded.now place key.now }
    ensures reasons { IfOk result (λ found. AreReasons loaded.now key.now at found.items) }
    ensures refused { IfErr result (λ r. r ≡ Refusal.Memory) }
{
    read_for_proof(loaded);
    let reported = loaded.reported_at(place);
    let mut reasons = Vec::new(alloc);
    note(&mut reasons, at_rest(&reported))?;
    note_all(&mut reasons, waits(alloc, loaded, place)?)?;
    note(&mut reasons, held(reported.operation))?;
    note_start(alloc, &mut reasons, loaded, key, &reported, at)?;
    Ok(reasons)
}

// The first of these reasons, if there is one.
fn first_of(reasons: &[Reason]) -> Option<Reason>
    ensures { result ≡ first_of reasons.now }
{
    reasons.first().copied()
}

/// The first reason why the operation at an index, of this key, doesn't go on at a moment, as `explain` lists them; `None`
/// where there is none. The error is always `Memory`.
///
/// It takes the time of the operation's predecessors, its needs and their holders.
pub fn first_reason(
    alloc: Global,
    loaded: &LoadedPlan,
    key: &OpKey,
    place: usize,
    at: Moment,
) -> Result<Option<Reason>, Refusal>
    requires { IsAt loaded.now place key.now }
    ensures reason { IfOk result (IsFirstReason loaded.now key.now at) }
    ensures refused { IfErr result (λ r. r ≡ Refusal.Memory) }
{
    let reasons = reasons_at(alloc, loaded, key, place, at)?;
    Ok(first_of(&reasons))
}

/// Why an operation doesn't go on at a moment: every reason, who holds what lacks, and the roots of the chain that it waits
/// for; `None` exactly where the operation isn't in the plan. The error is always `Memory`.
///
/// On a workstation of attribute A or S it goes on by a start, on one of attribute C by its completion, on one of
/// attribute N, and as a NOP, by passing. It takes the time of `roots`; its reasons alone take that of its predecessors, its
/// needs and their holders.
pub fn explain(
    alloc: Global,
    loaded: &LoadedPlan,
    key: &OpKey,
    at: Moment,
) -> Result<Option<Why>, Refusal>
    ensures why { IfOk result (λ found. MatchOption found (¬ IsInPlan loaded.now key.now) (IsWhy loaded.now key.now at)) }
    ensures refused { IfErr result (λ r. r ≡ Refusal.Memory) }
{
    let Some(place) = loaded.place_of(key) else {
        return Ok(None);
    };
    let reasons = reasons_at(alloc, loaded, key, place, at)?;
    let holders = other_holders(alloc, loaded, key, &reasons)?;
    let chain = roots(alloc, loaded, place)?;
    Ok(Some(Why {
        status: loaded.status_at(place),
        reasons,
        holders,
        roots: chain,
    }))
}
