// The text of each show of a plan, or why there is none.
ghost use Rattle.std.specs.Prelude.{◌≡◌, ◌∷◌, IfErr, IfOk, None, Some, map, true};
ghost use Rattle.std.specs.FinMap.{contains_key, get};
ghost use Rattle.plan_basics.specs.declared.Refusal.{Refusal};
ghost use Rattle.report_lines.specs.Lines.{report};
ghost use Rattle.plan_shows.specs.Shows.{IsOwed, IsShow, at_moment, show_refusal_of};
ghost use Rattle.plan_shows.specs.declared.shows.Show.{Show as ShowValue};

use super::dependencies::{DependencyView, dependency_views};
use super::intervals::{intervals_of, workstation_of};
use super::reached::reached_views;
use super::resources::{ResourceRow, resource_rows, resource_views};
use super::rows::{
    DependencyRows, IntervalRows, OperationRows, ReachedRows, ResourceRows, StartedRows,
    TrackerRows, WorkstationRows,
};
use super::stations::{WorkstationView, workstation_views};
use super::trackers::{TrackerView, tracker_views};
use super::views::{operation_views, started_views};
use plan_basics::{Interval, OccKey, OpKey, Refusal, WsName};
use plan_reasons::{OpView, Plan};
use report_lines::{Field, Layout, moment_text, report};
use std::alloc::{AllocError, Global};
use tracker_receipts::Receipts;
use workstations::Workstation;

/// What is shown.
#[derive(Clone, Copy)]
pub enum Show {
    /// The operations of status S, by key: those that were named and those that were reported as started.
    Started,
    /// The operations of an occurrence, by number.
    Operations(OccKey),
    /// The special resources by name, each followed by those that hold it, by key.
    Resources,
    /// The workstations, by name.
    Workstations,
    /// The trackers that have a receipt, by name.
    Trackers,
    /// The dependencies with an end in an occurrence, by predecessor, then successor.
    Dependencies(OccKey),
    /// What a rerun of an operation reaches, itself too, by key.
    Reach(OpKey),
    /// The open intervals of a workstation, by first minute.
    Intervals(WsName),
}

// The report of these rows at the plan's clock, under a first line that begins with this word.
fn report_at<L: Layout<R>, R>(
    alloc: Global,
    plan: &Plan,
    word: &[u8],
    rows: &[R],
) -> Result<Vec<u8>, AllocError>
    ensures { IfOk result (λ text. text.items ≡ report (word.now ∷ at_moment plan.now.plan.clock) (map L.columns rows.now)) }
{
    let at = moment_text(plan.clock());
    let head = [Field::Word(word), Field::Word(b"AT"), Field::Word(&at)];
    report::<L, R>(alloc, &head, rows)
}

// So under a first line that goes on with what is shown.
fn report_of<L: Layout<R>, R>(
    alloc: Global,
    plan: &Plan,
    word: &[u8],
    named: &[u8],
    rows: &[R],
) -> Result<Vec<u8>, AllocError>
    ensures { IfOk result (λ text. text.items ≡ report (word.now ∷ named.now ∷ at_moment plan.now.plan.clock) (map L.columns rows.now)) }
{
    let at = moment_text(plan.clock());
    let head = [
        Field::Word(word),
        Field::Word(named),
        Field::Word(b"AT"),
        Field::Word(&at),
    ];
    report::<L, R>(alloc, &head, rows)
}

// The operations that are started.
fn started_shown(alloc: Global, plan: &Plan, receipts: &Receipts) -> Result<Vec<u8>, Refusal>
    ensures text { IfOk result (λ text. IsShow ShowValue.Started plan.now.plan receipts.now text.items) }
    ensures refused { IfErr result (λ r. r ≡ Refusal.Memory) }
{
    let views = started_views(alloc, plan)?;
    Ok(report_at::<StartedRows, OpView>(alloc, plan, b"STARTED", &views)?)
}

// The operations of an occurrence.
fn operations_shown(
    alloc: Global,
    plan: &Plan,
    receipts: &Receipts,
    occurrence: &OccKey,
) -> Result<Vec<u8>, Refusal>
    ensures text { IfOk result (λ text. IsShow (ShowValue.Operations occurrence.now) plan.now.plan receipts.now text.items) }
    ensures refused { IfErr result (λ r. r ≡ Refusal.Memory) }
{
    let views = operation_views(alloc, plan, occurrence)?;
    let key = occurrence.to_text();
    Ok(report_of::<OperationRows, OpView>(alloc, plan, b"OPERATIONS", key.as_bytes(), &views)?)
}

// The special resources.
fn resources_shown(alloc: Global, plan: &Plan, receipts: &Receipts) -> Result<Vec<u8>, Refusal>
    ensures text { IfOk result (λ text. IsShow ShowValue.Resources plan.now.plan receipts.now text.items) }
    ensures refused { IfErr result (λ r. r ≡ Refusal.Memory) }
{
    let views = resource_views(alloc, plan)?;
    let rows = resource_rows(alloc, &views)?;
    Ok(report_at::<ResourceRows, ResourceRow>(alloc, plan, b"RESOURCES", &rows)?)
}

// The workstations.
fn workstations_shown(alloc: Global, plan: &Plan, receipts: &Receipts) -> Result<Vec<u8>, Refusal>
    ensures text { IfOk result (λ text. IsShow ShowValue.Workstations plan.now.plan receipts.now text.items) }
    ensures refused { IfErr result (λ r. r ≡ Refusal.Memory) }
{
    let views = workstation_views(alloc, plan)?;
    Ok(report_at::<WorkstationRows, WorkstationView>(alloc, plan, b"WORKSTATIONS", &views)?)
}

// The trackers.
fn trackers_shown(alloc: Global, plan: &Plan, receipts: &Receipts) -> Result<Vec<u8>, Refusal>
    ensures text { IfOk result (λ text. IsShow ShowValue.Trackers plan.now.plan receipts.now text.items) }
    ensures refused { IfErr result (λ r. r ≡ Refusal.Memory) }
{
    let views = tracker_views(alloc, receipts)?;
    Ok(report_at::<TrackerRows, TrackerView>(alloc, plan, b"TRACKERS", &views)?)
}

// The dependencies of an occurrence.
fn dependencies_shown(
    alloc: Global,
    plan: &Plan,
    receipts: &Receipts,
    occurrence: &OccKey,
) -> Result<Vec<u8>, Refusal>
    ensures text { IfOk result (λ text. IsShow (ShowValue.Dependencies occurrence.now) plan.now.plan receipts.now text.items) }
    ensures refused { IfErr result (λ r. r ≡ Refusal.Memory) }
{
    let views = dependency_views(alloc, plan, occurrence)?;
    let key = occurrence.to_text();
    Ok(report_of::<DependencyRows, DependencyView>(
        alloc,
        plan,
        b"DEPENDENCIES",
        key.as_bytes(),
        &views,
    )?)
}

// Whether an operation is in the plan.
fn has_operation(plan: &Plan, key: &OpKey) -> bool
    ensures { result ≡ contains_key plan.now.plan.contents.operations key.now }
{
    plan.view_op(key).is_some()
}

// What a rerun of an operation of the plan reaches.
fn reach_shown(
    alloc: Global,
    plan: &Plan,
    receipts: &Receipts,
    key: &OpKey,
) -> Result<Vec<u8>, Refusal>
    requires { contains_key plan.now.plan.contents.operations key.now ≡ true }
    ensures text { IfOk result (λ text. IsShow (ShowValue.Reach key.now) plan.now.plan receipts.now text.items) }
    ensures refused { IfErr result (λ r. r ≡ Refusal.Memory) }
{
    let views = reached_views(alloc, plan, key)?;
    let named = key.to_text();
    Ok(report_of::<ReachedRows, OpView>(alloc, plan, b"REACH", named.as_bytes(), &views)?)
}

// The open intervals of a workstation of the plan.
fn intervals_shown(
    alloc: Global,
    plan: &Plan,
    receipts: &Receipts,
    name: &WsName,
    workstation: &Workstation,
) -> Result<Vec<u8>, Refusal>
    requires { get plan.now.plan.contents.workstations name.now ≡ Some workstation.now.1 }
    ensures text { IfOk result (λ text. IsShow (ShowValue.Intervals name.now) plan.now.plan receipts.now text.items) }
    ensures refused { IfErr result (λ r. r ≡ Refusal.Memory) }
{
    let intervals = intervals_of(workstation);
    Ok(report_of::<IntervalRows, Interval>(alloc, plan, b"INTERVALS", name.as_bytes(), intervals)?)
}

/// A show of a plan and of trackers' receipts. Refused as `NotLoaded` before a plan is loaded, else as
/// `UnknownOccurrence`, `UnknownOperation` or `UnknownWorkstation` where what is to be shown isn't in it, else as `Memory`.
pub fn shown(
    alloc: Global,
    plan: &Plan,
    receipts: &Receipts,
    show: &Show,
) -> Result<Vec<u8>, Refusal>
    ensures text { IfOk result (λ text. IsShow show.now plan.now.plan receipts.now text.items) }
    ensures none_owed { IfOk result (λ text. show_refusal_of show.now plan.now.plan ≡ None) }
    ensures refused { IfErr result (IsOwed (show_refusal_of show.now plan.now.plan)) }
{
    if !plan.is_loaded() {
        return Err(Refusal::NotLoaded);
    }
    match show {
        Show::Started => started_shown(alloc, plan, receipts),
        Show::Operations(occurrence) => {
            let Some(_) = plan.view_occ(occurrence) else {
                return Err(Refusal::UnknownOccurrence);
            };
            operations_shown(alloc, plan, receipts, occurrence)
        }
        Show::Resources => resources_shown(alloc, plan, receipts),
        Show::Workstations => workstations_shown(alloc, plan, receipts),
        Show::Trackers => trackers_shown(alloc, plan, receipts),
        Show::Dependencies(occurrence) => match plan.view_occ(occurrence) {
            Some(_) => dependencies_shown(alloc, plan, receipts, occurrence),
            None => Err(Refusal::UnknownOccurrence),
        },
        Show::Reach(key) => {
            if has_operation(plan, key) {
                reach_shown(alloc, plan, receipts, key)
            } else {
                Err(Refusal::UnknownOperation)
            }
        }
        Show::Intervals(name) => match workstation_of(plan, name) {
            Some(workstation) => intervals_shown(alloc, plan, receipts, name, workstation),
            None => Err(Refusal::UnknownWorkstation),
        },
    }
}
