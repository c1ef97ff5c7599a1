// The paths by which occurrences will be late: what each operation begins after.
ghost use Rattle.std.specs.Prelude.{◌≡◌, ◌⊎◌, ℕ, ◌<◌, ◌≤◌, Some, length, Decides, IfOk, MatchOption};
ghost use Rattle.std.specs.FinMap.{entries, get};
ghost use Rattle.plan_basics.specs.declared.keys.OpKey.{OpKey as OpKeyValue};
ghost use Rattle.plan_forecast.specs.Ahead.{IsGoing};
ghost use Rattle.plan_model.specs.Holdings.{takes};
ghost use Rattle.plan_model.specs.special_resources.specs.Holders.{Usage};
ghost use Rattle.plan_reasons.specs.Reasons.{BeginsAt, amount_needed};
ghost use Rattle.plan_reasons.specs.declared.reasons.Reason.TheVariants as reason;
ghost use Rattle.plan_outlooks.specs.Forecasts.{Forecast, begin_minute};
ghost use Rattle.plan_outlooks.specs.Lent.{IsLent, IsOfRow};
ghost use Rattle.plan_outlooks.specs.Occurrences.{AreOccurrenceOutlooks, IsOccurrenceOutlook, IsOutstandingOccurrence};
ghost use Rattle.plan_outlooks.specs.PathParts.{IsBefore, IsFirstIn};
ghost use Rattle.plan_outlooks.specs.Paths.{AreLatePaths, BeginsFrom, EndsAt, IsAwaited, IsFreeing, IsMember, IsPathTo, OpensAt, StandsBefore};
ghost use Rattle.plan_outlooks.specs.Lacks.{HasOf, IsLack};

use super::lists::note_all;
use super::refs::{
    ForecastRefs, beginning_of, is_at, is_complete, is_going_at, is_since_unknown, key_at,
    read_for_proof, time_at,
};
use super::rows::{Cause, OccurrenceOutlook, PathMember};
use plan_basics::{Attr, Moment, OccKey, ResName, WsName};
use plan_model::OperationRecord;
use plan_reasons::{Obstacle, Reason, Scarcity, Shortage, Supply};
use std::alloc::{AllocError, Global};
use workstations::Workstation;

// What an operation begins after, and the index of the operation by whose end it does, if by one's.
#[derive(Clone, Copy)]
struct Preceding {
    cause: Cause,
    place: Option<usize>,
}

// Whether a moment isn't after another one.
fn is_by(moment: Moment, other: Moment) -> bool
    ensures { Decides result (moment ≤ other) }
{
    moment <= other
}

// Whether a moment is before another one.
fn is_before(moment: Moment, other: Moment) -> bool
    ensures { Decides result (moment < other) }
{
    moment < other
}

// Whether the operation at an index isn't complete in the plan as it stands, and is from a moment on.
fn ends_at(refs: &ForecastRefs<'_>, place: usize, moment: Moment) -> bool
    requires { (F : Forecast) × IsLent F refs.now × (place < length (entries F.plan.contents.operations)) }
    ensures { (F : Forecast) (o : OpKeyValue) → IsLent F refs.now → IsOfRow F place o → Decides result (EndsAt F moment o) }
{
    read_for_proof(refs.plan);
    is_at(time_at(refs.done, place), moment) && !is_complete(refs.plan.status_at(place))
}

// When the operation at an index begins.
fn begin_at(refs: &ForecastRefs<'_>, place: usize) -> Moment
    requires { (F : Forecast) × IsLent F refs.now × (place < length (entries F.plan.contents.operations)) }
    ensures { (F : Forecast) (o : OpKeyValue) → IsLent F refs.now → IsOfRow F place o → BeginsFrom F o result }
{
    beginning_of(refs, place)
}

// Whether the operation at an index begins by a moment and ends then.
fn ends_by(refs: &ForecastRefs<'_>, place: usize, moment: Moment) -> bool
    requires { (F : Forecast) × IsLent F refs.now × (place < length (entries F.plan.contents.operations)) }
    ensures { (F : Forecast) (o : OpKeyValue) → IsLent F refs.now → IsOfRow F place o → Decides result (EndsAt F moment o × ((b : ℕ) × BeginsFrom F o b × (b ≤ moment))) }
{
    ends_at(refs, place, moment) && is_by(begin_at(refs, place), moment)
}

// The index of the first predecessor of an operation in key order that ends at a moment, if one does.
fn awaited(refs: &ForecastRefs<'_>, place: usize, moment: Moment) -> Option<usize>
    requires { (F : Forecast) × IsLent F refs.now × (place < length (entries F.plan.contents.operations)) }
    ensures { (F : Forecast) (o : OpKeyValue) → IsLent F refs.now → IsOfRow F place o → IsFirstIn F (IsAwaited F o moment) result }
{
    let graph = refs.plan.graph();
    let mut first = None;
    for other in graph.preds(place) {
        if ends_by(refs, *other, moment) {
            first = Some(lesser(first, *other));
        }
    }
    first
}

// The lesser of an index and another one, if there is one.
fn lesser(first: Option<usize>, other: usize) -> usize
    ensures { MatchOption first (result ≡ other) (λ found. (result ≤ found) × (result ≤ other) × ((result ≡ found) ⊎ (result ≡ other))) }
{
    match first {
        Some(found) => found.min(other),
        None => other,
    }
}

// Whether an interval of a workstation begins at a moment.
fn begins_at(workstation: &Workstation, moment: Moment) -> bool
    ensures { Decides result (BeginsAt workstation.now.1 moment) }
{
    for interval in workstation.intervals() {
        if interval.from() == moment {
            return true;
        }
    }
    false
}

// Whether an interval of the workstation of an operation begins at a moment.
fn opens_at(refs: &ForecastRefs<'_>, operation: &OperationRecord, moment: Moment) -> bool
    requires { (F : Forecast) × IsLent F refs.now }
    ensures { (F : Forecast) (o : OpKeyValue) → IsLent F refs.now → get F.plan.contents.operations o ≡ Some operation.now → Decides result (OpensAt F.plan.contents o moment) }
{
    match refs.plan.contents().workstation(&operation.workstation) {
        Some(workstation) => begins_at(workstation, moment),
        None => false,
    }
}

// Whether operations take servers, R1 and R2 of a workstation that reports so.
fn takes(attribute: Attr) -> bool
    ensures { result ≡ takes (Some attribute) }
{
    attribute.knows_starts()
}

// Whether an operation needs a special resource.
fn needs_resource(operation: &OperationRecord, name: &ResName) -> bool
    ensures { Decides result ((x : Usage) × (get operation.now.needs name.now ≡ Some x)) }
{
    for need in operation.needs.as_slice() {
        if need.name == *name {
            return true;
        }
    }
    false
}

// How much of a supply an operation takes.
fn amount_needed(supply: Supply, operation: &OperationRecord) -> u32
    ensures { result ≡ amount_needed supply operation.now }
{
    match supply {
        Supply::Servers => 1,
        Supply::R1 => u32::from(operation.r1),
        Supply::R2 => u32::from(operation.r2),
    }
}

// Whether two workstations are the same.
fn is_workstation(a: &WsName, b: &WsName) -> bool
    ensures { Decides result (a.now ≡ b.now) }
{
    *a == *b
}

// Whether an operation has some of what lacks on a workstation.
fn is_of_supply(operation: &OperationRecord, shortage: &Shortage) -> bool
    ensures { Decides result ((operation.now.workstation ≡ shortage.now.workstation) × (0 < amount_needed shortage.now.supply operation.now)) }
{
    if !is_workstation(&operation.workstation, &shortage.workstation) {
        return false;
    }
    0 < amount_needed(shortage.supply, operation)
}

// Whether the operation at an index has some of what lacks on a workstation.
fn has_of_supply(refs: &ForecastRefs<'_>, place: usize, shortage: &Shortage) -> bool
    requires { (F : Forecast) × IsLent F refs.now × (place < length (entries F.plan.contents.operations)) }
    ensures { (F : Forecast) (q : OpKeyValue) → IsLent F refs.now → IsOfRow F place q → Decides result (HasOf F.plan.contents q (Some (reason.Lacks shortage.now))) }
{
    let reported = refs.plan.reported_at(place);
    if !takes(reported.attribute) {
        return false;
    }
    is_of_supply(reported.operation, shortage)
}

// Whether the operation at an index has some of a special resource.
fn has_of_resource(refs: &ForecastRefs<'_>, place: usize, scarcity: &Scarcity) -> bool
    requires { (F : Forecast) × IsLent F refs.now × (place < length (entries F.plan.contents.operations)) }
    ensures { (F : Forecast) (q : OpKeyValue) → IsLent F refs.now → IsOfRow F place q → Decides result (HasOf F.plan.contents q (Some (reason.TooLittleLeft scarcity.now))) }
{
    let reported = refs.plan.reported_at(place);
    if !takes(reported.attribute) {
        return false;
    }
    needs_resource(reported.operation, &scarcity.resource)
}

// Whether the operation at an index is the holder that is in the way.
fn is_holder(refs: &ForecastRefs<'_>, place: usize, obstacle: &Obstacle) -> bool
    requires { (F : Forecast) × IsLent F refs.now × (place < length (entries F.plan.contents.operations)) }
    ensures { (F : Forecast) (q : OpKeyValue) → IsLent F refs.now → IsOfRow F place q → Decides result (HasOf F.plan.contents q (Some (reason.HeldBy obstacle.now))) }
{
    obstacle.holder == key_at(refs.plan, place)
}

// Whether the operation at an index has some of what lacks by a reason.
fn has_of(refs: &ForecastRefs<'_>, place: usize, lack: &Option<Reason>) -> bool
    requires { (F : Forecast) × IsLent F refs.now × (place < length (entries F.plan.contents.operations)) }
    ensures { (F : Forecast) (q : OpKeyValue) → IsLent F refs.now → IsOfRow F place q → Decides result (HasOf F.plan.contents q lack.now) }
{
    let Some(lack) = lack else {
        return false;
    };
    match lack {
        Reason::Lacks(shortage) => has_of_supply(refs, place, shortage),
        Reason::HeldBy(obstacle) => is_holder(refs, place, obstacle),
        Reason::TooLittleLeft(scarcity) => has_of_resource(refs, place, scarcity),
        _ => false,
    }
}

// Whether the operation at an index begins before a moment and ends then.
fn lasts_until(refs: &ForecastRefs<'_>, place: usize, moment: Moment) -> bool
    requires { (F : Forecast) × IsLent F refs.now × (place < length (entries F.plan.contents.operations)) }
    ensures { (F : Forecast) (o : OpKeyValue) → IsLent F refs.now → IsOfRow F place o → Decides result (EndsAt F moment o × ((b : ℕ) × BeginsFrom F o b × (b < moment))) }
{
    ends_at(refs, place, moment) && is_before(begin_at(refs, place), moment)
}

// Whether the operation at an index begins before a moment, ends then, and has some of what lacks by a reason.
fn is_freeing(refs: &ForecastRefs<'_>, other: usize, lack: &Option<Reason>, moment: Moment) -> bool
    requires { (F : Forecast) × IsLent F refs.now × (other < length (entries F.plan.contents.operations)) }
    ensures { (F : Forecast) (q : OpKeyValue) → IsLent F refs.now → IsOfRow F other q → Decides result (IsFreeing F moment lack.now q) }
{
    if !lasts_until(refs, other, moment) {
        return false;
    }
    has_of(refs, other, lack)
}

// The index of the first operation in key order that begins before a moment, ends then, and has some of what lacks by a reason, if one
// does.
fn freeing(refs: &ForecastRefs<'_>, lack: &Option<Reason>, moment: Moment) -> Option<usize>
    requires { (F : Forecast) × IsLent F refs.now }
    ensures { (F : Forecast) → IsLent F refs.now → IsFirstIn F (IsFreeing F moment lack.now) result }
{
    for other in 0..refs.done.len() {
        if is_freeing(refs, other, lack, moment) {
            return Some(other);
        }
    }
    None
}

// What an operation that isn't going begins after, which begins at a moment after the forecast's, and after no predecessor's end.
fn cause_of(
    refs: &ForecastRefs<'_>,
    place: usize,
    lack: &Option<Reason>,
    moment: Moment,
) -> Preceding
    requires { (F : Forecast) × IsLent F refs.now × (place < length (entries F.plan.contents.operations)) }
    ensures { (F : Forecast) (o : OpKeyValue) → IsLent F refs.now → IsOfRow F place o → ¬ IsGoing F.plan.contents o → ¬ (moment ≡ F.from) → ((p : OpKeyValue) → ¬ IsAwaited F o moment p) → IsBefore F o moment lack.now result.cause result.place }
{
    let reported = refs.plan.reported_at(place);
    let operation = reported.operation;
    if operation.not_before == moment {
        return Preceding {
            cause: Cause::NotBefore,
            place: None,
        };
    }
    if opens_at(refs, operation, moment) {
        return Preceding {
            cause: Cause::Opens,
            place: None,
        };
    }
    Preceding {
        cause: Cause::Frees,
        place: freeing(refs, lack, moment),
    }
}

// What the operation at an index begins after, which is going or begins at a moment.
fn cause_at(
    refs: &ForecastRefs<'_>,
    place: usize,
    is_going: bool,
    lack: &Option<Reason>,
    moment: Moment,
) -> Preceding
    requires { (F : Forecast) × IsLent F refs.now × (place < length (entries F.plan.contents.operations)) }
    ensures { (F : Forecast) (o : OpKeyValue) → IsLent F refs.now → IsOfRow F place o → Decides is_going (IsGoing F.plan.contents o) → IsBefore F o moment lack.now result.cause result.place }
{
    if is_going || moment == refs.from {
        return Preceding {
            cause: Cause::Now,
            place: None,
        };
    }
    match awaited(refs, place, moment) {
        Some(other) => Preceding {
            cause: Cause::After,
            place: Some(other),
        },
        None => cause_of(refs, place, lack, moment),
    }
}

// A member of a path, and the index of the operation with which the path goes on before it, if it does.
#[derive(Clone, Copy)]
struct PathStep {
    member: PathMember,
    place: Option<usize>,
}

// What the operation at an index lacks first as the minute begins at which it begins.
fn lack_at(refs: &ForecastRefs<'_>, place: usize) -> Option<Reason>
    requires { (F : Forecast) × IsLent F refs.now × (place < length (entries F.plan.contents.operations)) }
    ensures { (F : Forecast) (o : OpKeyValue) → IsLent F refs.now → IsOfRow F place o → IsLack F.plan F.requests o (begin_minute F o) result }
{
    refs.lacks[place]
}

// The member of the path of a late occurrence at an index, which ends at a moment.
fn step_at(refs: &ForecastRefs<'_>, late: &OccKey, place: usize, end: Moment) -> PathStep
    requires { (F : Forecast) × IsLent F refs.now × (place < length (entries F.plan.contents.operations)) }
    ensures { (F : Forecast) (o : OpKeyValue) → IsLent F refs.now → IsOfRow F place o → EndsAt F end o → IsMember F late.now o result.member × IsBefore F o result.member.begin result.member.lack result.member.cause result.place }
{
    let begin = begin_at(refs, place);
    let lack = lack_at(refs, place);
    let found = cause_at(refs, place, is_going_at(refs, place), &lack, begin);
    PathStep {
        member: PathMember {
            late: *late,
            key: key_at(refs.plan, place),
            cause: found.cause,
            begin,
            is_known: !is_since_unknown(refs, place),
            end,
            lack,
        },
        place: found.place,
    }
}

// The members of the path to the operation at an index, the last one first.
fn path_to(
    alloc: Global,
    refs: &ForecastRefs<'_>,
    late: &OccKey,
    last: usize,
    ending: Moment,
) -> Result<Vec<PathMember>, AllocError>
    requires { (F : Forecast) × (o : OpKeyValue) × IsLent F refs.now × IsOfRow F last o × EndsAt F ending o }
    ensures { IfOk result (λ back. (F : Forecast) (o : OpKeyValue) → IsLent F refs.now → IsOfRow F last o → EndsAt F ending o → IsPathTo F late.now o back.items) }
{
    read_for_proof(refs.plan);
    // (named here, since a member has one)
    let _none: Option<Reason> = None;
    let mut path = Vec::new(alloc);
    let mut next = Some(last);
    let mut until = ending;
    for _ in 0..refs.done.len() {
        match next {
            Some(place) => {
                let step = step_at(refs, late, place, until);
                path.push(step.member)?;
                next = step.place;
                until = step.member.begin;
            }
            None => return Ok(path),
        }
    }
    Ok(path)
}

// Whether the operation at an index is one of an occurrence, and ends at a moment.
fn is_end_of(refs: &ForecastRefs<'_>, place: usize, occurrence: &OccKey, moment: Moment) -> bool
    requires { (F : Forecast) × IsLent F refs.now × (place < length (entries F.plan.contents.operations)) }
    ensures { (F : Forecast) (o : OpKeyValue) → IsLent F refs.now → IsOfRow F place o → Decides result ((o.occurrence ≡ occurrence.now) × EndsAt F moment o) }
{
    ends_at(refs, place, moment) && key_at(refs.plan, place).occurrence == *occurrence
}

// The index of the first operation of an occurrence in key order that ends at a moment, if one does.
fn last_of(refs: &ForecastRefs<'_>, occurrence: &OccKey, end: Moment) -> Option<usize>
    requires { (F : Forecast) × IsLent F refs.now }
    ensures { (F : Forecast) → IsLent F refs.now → IsFirstIn F (λ p. (p.occurrence ≡ occurrence.now) × EndsAt F end p) result }
{
    for place in 0..refs.done.len() {
        if is_end_of(refs, place, occurrence, end) {
            return Some(place);
        }
    }
    None
}

// The members of the path by which an occurrence will be late, in the order in which they begin; none where it won't be.
fn late_path(
    alloc: Global,
    refs: &ForecastRefs<'_>,
    late: &OccurrenceOutlook,
) -> Result<Vec<PathMember>, AllocError>
    requires { (F : Forecast) × IsLent F refs.now × IsOutstandingOccurrence F.plan.contents late.now.key × IsOccurrenceOutlook F late.now }
    ensures { IfOk result (λ path. (F : Forecast) → IsLent F refs.now → IsOutstandingOccurrence F.plan.contents late.now.key → IsOccurrenceOutlook F late.now → StandsBefore F late.now.key late.now.end late.now.late path.items) }
{
    read_for_proof(refs.plan);
    let Some(end) = late.end else {
        return Ok(Vec::new(alloc));
    };
    if late.late.is_none() {
        return Ok(Vec::new(alloc));
    }
    let last = last_of(refs, &late.key, end).unwrap();
    let mut path = path_to(alloc, refs, &late.key, last, end)?;
    path.reverse();
    Ok(path)
}

/// The members of the paths by which occurrences will be late: by occurrence, and of each in the order in which they begin.
pub(crate) fn late_paths(
    alloc: Global,
    refs: &ForecastRefs<'_>,
    occurrences: &[OccurrenceOutlook],
) -> Result<Vec<PathMember>, AllocError>
    requires { (F : Forecast) × IsLent F refs.now × AreOccurrenceOutlooks F occurrences.now }
    ensures { IfOk result (λ paths. (F : Forecast) → IsLent F refs.now → AreOccurrenceOutlooks F occurrences.now → AreLatePaths F occurrences.now paths.items) }
{
    let mut paths = Vec::new(alloc);
    for late in occurrences {
        note_all(&mut paths, late_path(alloc, refs, late)?)?;
    }
    Ok(paths)
}
