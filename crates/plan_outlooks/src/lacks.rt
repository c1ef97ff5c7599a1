// What each operation lacks as the minute begins at which it begins in a forecast: its requests are made once more, in a copy of the plan.
ghost use Rattle.std.specs.Prelude.{◌≡◌, ◌<◌, ◌≤◌, All, IfErr, IfOk, OnOk, int_lt, length, List, pos, take};
ghost use Rattle.std.specs.FinMap.{entries};
ghost use Rattle.plan_basics.specs.declared.Refusal.{Refusal};
ghost use Rattle.plan_basics.specs.declared.keys.OpKey.{OpKey as OpKeyValue};
ghost use Rattle.plan_model.specs.Plan.{Plan as PlanValue};
ghost use Rattle.plan_reasons.specs.Whys.{IsFirstReason};
ghost use Rattle.plan_records.specs.Answer.{accepted};
ghost use Rattle.plan_records.specs.Step.{Step};
ghost use Rattle.plan_outlooks.specs.Lacks.{LeadTo};
ghost use Rattle.plan_outlooks.specs.Replays.{AreAllBefore, AreInOrder, AreLacksOf, AreSingle, AreTurnsOf, AreTurnsUpTo, IsMadeUpTo, IsTurnOf};
ghost use Rattle.plan_outlooks.specs.declared.lacks.Turn.{Turn};

use super::refs::{first_time, key_at, moment_or, time_at};
use plan_basics::{Moment, OpKey, Refusal};
use plan_reasons::{LoadedPlan, Plan, Reason, first_reason};
use plan_records::Request;
use std::alloc::{AllocError, Global};

/// An operation, by its index and its key, and the minute at which it begins.
#[derive(Clone, Copy)]
pub(crate) struct Turn {
    pub at: Moment,
    pub place: usize,
    pub key: OpKey,
}

// Makes a request of a forecast once more. The error is always `Memory`: none of them is refused.
fn make_again(plan: &mut Plan, request: &Request) -> Result<(), Refusal>
    requires { (after : PlanValue) × (chosen : List OpKeyValue) × Step plan.old.plan request.now (accepted chosen) after }
    ensures step { OnOk result ((chosen : List OpKeyValue) × Step plan.old.plan request.now (accepted chosen) plan.new.plan) }
    ensures memory { IfErr result (λ r. r ≡ Refusal.Memory) }
{
    let _ = plan.clock();
    match plan.prepare(request) {
        Ok(prepared) => {
            plan.apply(prepared);
            Ok(())
        }
        Err(refusal) => Err(refusal),
    }
}

// Whether a request comes before a moment.
fn is_before(request: &Request, at: Moment) -> bool
    ensures { result ≡ int_lt request.now.at (pos at) }
{
    request.at < at.minute()
}

// Makes those of a forecast's requests once more, from an index on, that come before a moment, and gives the index of the first that
// doesn't. The error is always `Memory`.
fn make_up_to(
    plan: &mut Plan,
    requests: &[Request],
    made: usize,
    at: Moment,
) -> Result<usize, Refusal>
    requires { (P : PlanValue) × (last : PlanValue) × LeadTo P requests.now last × LeadTo P (take made requests.now) plan.old.plan × (made ≤ length requests.now) }
    ensures made { IfOk result (λ next. (P : PlanValue) → LeadTo P (take made requests.now) plan.old.plan → AreAllBefore at requests.now made → IsMadeUpTo P requests.now at next plan.new.plan) }
    ensures memory { IfErr result (λ r. r ≡ Refusal.Memory) }
{
    let mut next = made;
    while next < requests.len() {
        if !is_before(&requests[next], at) {
            return Ok(next);
        }
        make_again(plan, &requests[next])?;
        next += 1;
    }
    Ok(next)
}

// The first reason why an operation doesn't go on at a moment. The error is always `Memory`.
fn lack_in(plan: &Plan, key: &OpKey, at: Moment) -> Result<Option<Reason>, Refusal>
    ensures reason { IfOk result (IsFirstReason plan.now.plan.contents key.now at) }
    ensures memory { IfErr result (λ r. r ≡ Refusal.Memory) }
{
    let Some(loaded) = plan.loaded() else {
        return Ok(None);
    };
    match loaded.place_of(key) {
        Some(place) => first_reason(plan.alloc(), loaded, key, place, at),
        None => Ok(None),
    }
}

// So many times nothing.
fn nothing(alloc: Global, count: usize) -> Result<Vec<Option<Reason>>, AllocError>
    ensures { IfOk result (λ lacks. length lacks.items ≡ count) }
{
    let mut lacks = Vec::with_capacity(alloc, count)?;
    for _ in 0..count {
        lacks.push(None)?;
    }
    Ok(lacks)
}

// When the operation at an index begins, by when operations are going and complete.
fn turn_at(
    loaded: &LoadedPlan,
    since: &[Option<Moment>],
    done: &[Option<Moment>],
    from: Moment,
    place: usize,
) -> Turn
    requires place { place < length (entries loaded.now.operations) }
    requires since { length since.now ≡ length (entries loaded.now.operations) }
    requires done { length done.now ≡ length (entries loaded.now.operations) }
    ensures { IsTurnOf loaded.now since.now done.now from place result }
{
    let begun = first_time(time_at(since, place), time_at(done, place));
    Turn {
        at: moment_or(from, &begun),
        place,
        key: key_at(loaded, place),
    }
}

// When operations begin, in key order.
fn turns_by_place(
    alloc: Global,
    loaded: &LoadedPlan,
    since: &[Option<Moment>],
    done: &[Option<Moment>],
    from: Moment,
) -> Result<Vec<Turn>, AllocError>
    requires since { length since.now ≡ length (entries loaded.now.operations) }
    requires done { length done.now ≡ length (entries loaded.now.operations) }
    ensures { IfOk result (λ turns. AreTurnsUpTo loaded.now since.now done.now from (length (entries loaded.now.operations)) turns.items) }
{
    let count = since.len();
    let mut turns = Vec::with_capacity(alloc, count)?;
    for place in 0..count {
        turns.push(turn_at(loaded, since, done, from, place))?;
    }
    Ok(turns)
}

/// When operations begin, by when they are going and complete in a forecast, in the order in which they do.
pub(crate) fn turns_of(
    alloc: Global,
    loaded: &LoadedPlan,
    since: &[Option<Moment>],
    done: &[Option<Moment>],
    from: Moment,
) -> Result<Vec<Turn>, AllocError>
    requires since { length since.now ≡ length (entries loaded.now.operations) }
    requires done { length done.now ≡ length (entries loaded.now.operations) }
    ensures { IfOk result (λ turns. AreTurnsOf loaded.now since.now done.now from turns.items) }
{
    let mut turns = turns_by_place(alloc, loaded, since, done, from)?;
    turns.sort_by_key(|turn| turn.at)?;
    Ok(turns)
}

/// What operations lack first as the minute begins at which each begins, at their indices; by the requests of a forecast of a plan, and
/// these operations in the order in which they begin. The error is always `Memory`.
pub(crate) fn lacks_of(
    plan: &Plan,
    requests: &[Request],
    turns: &[Turn],
    count: usize,
) -> Result<Vec<Option<Reason>>, Refusal>
    requires leads { (last : PlanValue) × LeadTo plan.now.plan requests.now last }
    requires ordered { AreInOrder turns.now }
    requires within { All (λ (turn : Turn). turn.place < count) turns.now }
    requires single { AreSingle turns.now }
    ensures size { IfOk result (λ lacks. length lacks.items ≡ count) }
    ensures lacks { IfOk result (λ lacks. AreLacksOf plan.now.plan requests.now turns.now lacks.items) }
    ensures memory { IfErr result (λ r. r ≡ Refusal.Memory) }
{
    let mut again = plan.try_clone()?;
    let mut made = 0;
    let mut lacks = nothing(plan.alloc(), count)?;
    for turn in turns {
        made = make_up_to(&mut again, requests, made, turn.at)?;
        let lack = lack_in(&again, &turn.key, turn.at)?;
        lacks[turn.place] = lack;
    }
    Ok(lacks)
}
