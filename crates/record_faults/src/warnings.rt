// What never can be carried out, or never in time.
ghost use Rattle.std.specs.Prelude.{◌≡◌, ◌↔◌, ◌⊎◌, ℕ, ◌+◌, ◌<◌, None, Some, length, slice_get, unwrap_or, Contains, IsTrue, IfOk, OnOk};
ghost use Rattle.plan_basics.specs.declared.Attr.{Attr as SaidAttribute};
ghost use Rattle.plan_basics.specs.declared.keys.OccKey.{OccKey};
ghost use Rattle.plan_basics.specs.Intervals.{OpenInterval};
ghost use Rattle.plan_basics.specs.Keys.{Name};
ghost use Rattle.plan_items.specs.declared.Item.TheVariants as item;
ghost use Rattle.plan_items.specs.declared.OperationItem.{OperationItem as SaidOperation};
ghost use Rattle.record_faults.specs.Groups.{grouped, IsLastIfAny};
ghost use Rattle.record_faults.specs.declared.groups.Group.TheVariants as group;
ghost use Rattle.record_faults.specs.Sayings.{texts_of};
ghost use Rattle.record_faults.specs.Warnings.{Holds, Opens, IsHeld, NeverOpens, IsBeyond, IsBeyondIntervals, IsDeadlineOf, IsDeadlineOfOccurrence, IsLate, IsTooLate, IsWarning, IsWarningAt, AreWarningsBelow, AreOpenings, StartsAreKnown, StartsAreKnownOn};
ghost use Rattle.record_faults.specs.declared.warnings.RecordWarning.{RecordWarning};

use super::counts::{Counts, earlier_of, last_in, latest_of};
use super::groups::{Group, groups_said};
use super::index::{Index, first_place, index_of};
use super::sayings::{Fields, keys_given, sayings_of};
use plan_basics::{Attr, Moment, WsName};
use plan_drafts::RowKey;
use plan_items::{Item, OperationItem};
use std::alloc::{AllocError, Global};

/// What a record may be warned of.
#[derive(Clone, Copy)]
pub enum Warning {
    /// It says a workstation of attribute A or S, of which no record says an open interval.
    NeverOpens,
    /// It says an operation on a workstation of attribute A or S that needs more than each of the workstation's open intervals has.
    BeyondIntervals,
    /// It says an operation that ends after its deadline, even where it starts at its not-before and its input arrival.
    TooLate,
}

/// A warning, and the place of its record: how many records are before it.
#[derive(Clone, Copy)]
pub struct RecordWarning {
    pub place: usize,
    pub warning: Warning,
}

// What is known of the records before warnings are sought.
#[derive(Drop)]
pub struct Openings {
    /// What each record says.
    pub said: Vec<Option<Item>>,
    /// For each key the first place that gives it.
    pub index: Index,
    /// For each group the last place of it.
    pub latest: Counts,
    /// For each place the last before it of the same group.
    pub earlier: Vec<Option<usize>>,
}

// What is known of what records say.
fn openings_of(alloc: Global, said: Vec<Option<Item>>) -> Result<Openings, AllocError>
    ensures said { IfOk result (λ o. o.said.items ≡ said.items) }
    ensures are { IfOk result AreOpenings }
{
    let keys = keys_given(alloc, &said)?;
    let index = index_of(alloc, &keys)?;
    let groups = groups_said(alloc, &said)?;
    let latest = latest_of(alloc, &groups)?;
    let earlier = earlier_of(alloc, &groups)?;
    Ok(Openings {
        said,
        index,
        latest,
        earlier,
    })
}

// What the record at a place says.
fn item_at(said: &[Option<Item>], place: usize) -> Option<Item>
    ensures { result ≡ unwrap_or (slice_get said.now place) None }
{
    match said.get(place) {
        Some(item) => *item,
        None => None,
    }
}

// Whether starts are known on workstations of this attribute: only there open intervals and what they have hold starts back.
fn starts_are_known(attribute: Attr) -> bool
    ensures { IsTrue result ↔ StartsAreKnown attribute }
{
    attribute.knows_starts()
}

// The workstation that is said, if one is, and starts are known on it.
fn workstation_of(said: &Option<Item>) -> Option<WsName>
    ensures { (w : Name) → (result ≡ Some w) ↔ ((a : SaidAttribute) × (said.now ≡ Some (item.Workstation w a)) × StartsAreKnown a) }
{
    match *said {
        Some(Item::Workstation { name, attribute }) if starts_are_known(attribute) => Some(name),
        _ => None,
    }
}

// The operation that is said, if one is.
fn operation_of(said: &Option<Item>) -> Option<OperationItem>
    ensures { (o : SaidOperation) → (result ≡ Some o) ↔ (said.now ≡ Some (item.Operation o)) }
{
    match *said {
        Some(Item::Operation(operation)) => Some(operation),
        _ => None,
    }
}

// The deadline of the occurrence that is said, if one is.
fn deadline_said(said: &Option<Item>) -> Option<Moment>
    ensures { (d : ℕ) → (result ≡ Some d) ↔ ((c : OccKey) × (priority : ℕ) × (said.now ≡ Some (item.Occurrence c priority d))) }
{
    match *said {
        Some(Item::Occurrence { deadline, .. }) => Some(deadline),
        _ => None,
    }
}

// Whether an item is an interval of the operation's workstation in which it may run.
fn holds(operation: &OperationItem, said: &Option<Item>) -> bool
    ensures { IsTrue result ↔ ((x : OpenInterval) × (said.now ≡ Some (item.Interval operation.now.workstation x)) × Holds operation.now x) }
{
    match *said {
        Some(
            Item::Interval {
                workstation,
                interval,
            },
        ) => {
            workstation == operation.workstation
                && 1 <= interval.servers()
                && operation.r1 <= interval.r1()
                && operation.r2 <= interval.r2()
        }
        _ => false,
    }
}

// Whether the operation may run in an interval of its workstation, of which this is the last.
fn is_held(openings: &Openings, operation: &OperationItem, last: Option<usize>) -> bool
    requires openings { AreOpenings openings.now }
    requires last { IsLastIfAny (grouped openings.now.said.items) (length openings.now.said.items) (group.IntervalsOf operation.now.workstation) last }
    ensures { IsTrue result ↔ IsHeld openings.now.said.items operation.now }
{
    let mut next = last;
    while let Some(place) = next {
        let here = item_at(&openings.said, place);
        if holds(operation, &here) {
            return true;
        }
        next = openings.earlier[place];
    }
    false
}

// The last interval of a workstation, if there is one.
fn last_interval(openings: &Openings, workstation: &WsName) -> Option<usize>
    requires { AreOpenings openings.now }
    ensures { IsLastIfAny (grouped openings.now.said.items) (length openings.now.said.items) (group.IntervalsOf workstation.now) result }
{
    last_in(&openings.latest, &Group::IntervalsOf(*workstation))
}

// Whether a workstation has an open interval.
fn opens(openings: &Openings, workstation: &WsName) -> bool
    requires { AreOpenings openings.now }
    ensures { IsTrue result ↔ Opens openings.now.said.items workstation.now }
{
    last_interval(openings, workstation).is_some()
}

// Whether starts are known on a workstation, by the first record of it.
fn starts_are_known_on(openings: &Openings, workstation: &WsName) -> bool
    requires { AreOpenings openings.now }
    ensures { IsTrue result ↔ StartsAreKnownOn openings.now.said.items workstation.now }
{
    let key = RowKey::Workstation(*workstation);
    let Some(first) = first_place(&openings.index, &key) else {
        return false;
    };
    workstation_of(&item_at(&openings.said, first)).is_some()
}

// Whether the place says a workstation on which starts are known, and that never opens.
fn never_opens(openings: &Openings, place: usize) -> bool
    requires { AreOpenings openings.now }
    ensures { IsTrue result ↔ NeverOpens openings.now.said.items place }
{
    let Some(name) = workstation_of(&item_at(&openings.said, place)) else {
        return false;
    };
    !opens(openings, &name)
}

// Whether starts are known on an operation's workstation, it opens, and the operation may run in none of its intervals.
fn is_beyond(openings: &Openings, operation: &OperationItem) -> bool
    requires { AreOpenings openings.now }
    ensures { IsTrue result ↔ IsBeyond openings.now.said.items operation.now }
{
    if !starts_are_known_on(openings, &operation.workstation) {
        return false;
    }
    if !opens(openings, &operation.workstation) {
        return false;
    }
    let last = last_interval(openings, &operation.workstation);
    !is_held(openings, operation, last)
}

// Whether the place says such an operation.
fn is_beyond_intervals(openings: &Openings, place: usize) -> bool
    requires { AreOpenings openings.now }
    ensures { IsTrue result ↔ IsBeyondIntervals openings.now.said.items place }
{
    let Some(operation) = operation_of(&item_at(&openings.said, place)) else {
        return false;
    };
    is_beyond(openings, &operation)
}

// The deadline of an operation's occurrence, as the first record says it.
fn deadline_of_occurrence(openings: &Openings, operation: &OperationItem) -> Option<Moment>
    requires { AreOpenings openings.now }
    ensures { (d : ℕ) → (result ≡ Some d) ↔ IsDeadlineOfOccurrence openings.now.said.items operation.now d }
{
    let key = RowKey::Occurrence(operation.key.occurrence);
    let first = first_place(&openings.index, &key)?;
    deadline_said(&item_at(&openings.said, first))
}

// The deadline of an operation.
fn deadline_of(openings: &Openings, operation: &OperationItem) -> Option<Moment>
    requires { AreOpenings openings.now }
    ensures { (d : ℕ) → (result ≡ Some d) ↔ IsDeadlineOf openings.now.said.items operation.now d }
{
    match operation.deadline {
        Some(deadline) => Some(deadline),
        None => deadline_of_occurrence(openings, operation),
    }
}

// Whether a duration from a moment on goes past a deadline.
fn goes_past(from: Moment, duration: u16, deadline: Moment) -> bool
    ensures { IsTrue result ↔ (deadline < from + duration) }
{
    deadline.minute() < from.minute() + i64::from(duration)
}

// Whether an operation can't be in time.
fn is_late(openings: &Openings, operation: &OperationItem) -> bool
    requires { AreOpenings openings.now }
    ensures { IsTrue result ↔ IsLate openings.now.said.items operation.now }
{
    let Some(deadline) = deadline_of(openings, operation) else {
        return false;
    };
    if goes_past(operation.not_before, operation.duration, deadline) {
        return true;
    }
    goes_past(
        operation.key.occurrence.arrival,
        operation.duration,
        deadline,
    )
}

// Whether the place says such an operation.
fn is_too_late(openings: &Openings, place: usize) -> bool
    requires { AreOpenings openings.now }
    ensures { IsTrue result ↔ IsTooLate openings.now.said.items place }
{
    let Some(operation) = operation_of(&item_at(&openings.said, place)) else {
        return false;
    };
    is_late(openings, &operation)
}

// A warning goes to the end, where it is one.
fn warn(
    found: &mut Vec<RecordWarning>,
    place: usize,
    warning: Warning,
    is: bool,
) -> Result<(), AllocError>
    ensures { OnOk result ((w : RecordWarning) → Contains found.new.items w ↔ (Contains found.old.items w ⊎ ((w.place ≡ place) × (w.warning ≡ warning) × IsTrue is))) }
{
    if !is {
        return Ok(());
    }
    found.extend_from_slice(&[RecordWarning { place, warning }])?;
    Ok(())
}

// The warnings of a place go to the end.
fn warn_of_place(
    found: &mut Vec<RecordWarning>,
    openings: &Openings,
    place: usize,
) -> Result<(), AllocError>
    requires { AreOpenings openings.now }
    ensures { OnOk result ((w : RecordWarning) → Contains found.new.items w ↔ (Contains found.old.items w ⊎ ((w.place ≡ place) × IsWarningAt openings.now.said.items place w.warning))) }
{
    warn(
        found,
        place,
        Warning::NeverOpens,
        never_opens(openings, place),
    )?;
    let beyond = is_beyond_intervals(openings, place);
    warn(found, place, Warning::BeyondIntervals, beyond)?;
    warn(found, place, Warning::TooLate, is_too_late(openings, place))?;
    Ok(())
}

// The warnings of all places.
fn warnings_here(alloc: Global, openings: &Openings) -> Result<Vec<RecordWarning>, AllocError>
    requires { AreOpenings openings.now }
    ensures { IfOk result (λ v. AreWarningsBelow openings.now.said.items (length openings.now.said.items) v.items) }
{
    let mut found = Vec::new(alloc);
    for place in 0..openings.said.len() {
        warn_of_place(&mut found, openings, place)?;
    }
    Ok(found)
}

/// What the records are warned of, in the order of their places: workstations that never open, operations that may run in no
/// open interval of theirs, both where starts are known (attributes A and S), and operations that can't be in time by their
/// deadline. A plan may have them all the same.
/// Each record may have any number of fields. It fails for want of memory only.
pub fn warnings_of(alloc: Global, records: &[Fields]) -> Result<Vec<RecordWarning>, AllocError>
    ensures { IfOk result (λ v. (w : RecordWarning) → Contains v.items w ↔ IsWarning (texts_of records.now) w.place w.warning) }
{
    let said = sayings_of(alloc, records)?;
    let openings = openings_of(alloc, said)?;
    let warnings = warnings_here(alloc, &openings)?;
    Ok(warnings)
}
