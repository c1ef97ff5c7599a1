// What the records of a text that adds to a plan are warned of beside that plan.
ghost use Rattle.std.specs.Prelude.{◌≡◌, ◌↔◌, ◌⊎◌, ◌++◌, ◌-◌, ℕ, List, length, Contains, IfOk, IsTrue, OnOk, codes, decimal, map, string_bytes};
ghost use Rattle.std.specs.List.{AllZip};
ghost use Rattle.plan_basics.specs.Intervals.{OpenInterval};
ghost use Rattle.plan_import.specs.Lines.{BeginOn};
ghost use Rattle.record_faults.specs.Sayings.{texts_of};
ghost use Rattle.record_faults.specs.Warnings.{StartsAreKnown};
ghost use Rattle.record_faults.specs.declared.warnings.RecordWarning.{RecordWarning as WarningValue};
ghost use Rattle.extension_faults.specs.Warned.{more_warnings, AreNeverBelow, AreNeverStarting, AreWarned, AreWarningsBeside, HoldsAfter, NeverHolds, NeverStarts, NeverStartsAt, NeverStartsIn, WarnsFrom};

use super::finding::item_at;
use super::judging::{MOST_TOLD, first_of};
use plan_basics::{Attr, Interval, Moment};
use plan_import::{TextRecords, records_of_text};
use plan_items::{Item, OperationItem};
use plan_reasons::Plan;
use record_faults::{Fields, RecordWarning, sayings_of};
use std::alloc::{AllocError, Global};
use text_faults::{TextWarnings, line_of, warning_text, warnings_of_text};
use workstations::Workstation;

// The records that never start, by their places.
#[derive(Drop)]
struct NeverStarting {
    /// How many records are before each.
    places: Vec<usize>,
    /// The line in which each record of the text begins. The first line is 1.
    lines: Vec<u64>,
}

// Whether starts are known on workstations of this attribute.
fn starts_are_known(attribute: Attr) -> bool
    ensures { IsTrue result ↔ StartsAreKnown attribute }
{
    attribute.knows_starts()
}

// Whether an interval ends after the clock and an operation's not-before, and the operation may run in it.
fn holds_after(interval: &Interval, operation: &OperationItem, clock: Moment) -> bool
    ensures { IsTrue result ↔ HoldsAfter operation.now clock interval.now }
{
    1 <= interval.servers()
        && operation.r1 <= interval.r1()
        && operation.r2 <= interval.r2()
        && clock < interval.end()
        && operation.not_before < interval.end()
}

// Whether one of these does so.
fn some_holds(intervals: &[Interval], operation: &OperationItem, clock: Moment) -> bool
    ensures { IsTrue result ↔ ((x : OpenInterval) × Contains intervals.now x × HoldsAfter operation.now clock x) }
{
    for interval in intervals {
        if holds_after(interval, operation, clock) {
            return true;
        }
    }
    false
}

// Whether starts are known on a workstation, and none of its intervals does so.
fn never_holds(workstation: &Workstation, operation: &OperationItem, clock: Moment) -> bool
    ensures { IsTrue result ↔ NeverHolds workstation.now.1 operation.now clock }
{
    starts_are_known(workstation.attribute())
        && !some_holds(workstation.intervals(), operation, clock)
}

// Whether an operation never starts on its workstation, as the plan has that.
fn never_starts(plan: &Plan, operation: &OperationItem) -> bool
    ensures { IsTrue result ↔ NeverStarts plan.now.plan operation.now }
{
    let Some(loaded) = plan.loaded() else {
        return false;
    };
    match loaded.contents().workstation(&operation.workstation) {
        Some(workstation) => never_holds(workstation, operation, plan.clock()),
        None => false,
    }
}

// Whether the record at a place says such an operation.
fn never_starts_at(plan: &Plan, said: &[Option<Item>], place: usize) -> bool
    ensures { IsTrue result ↔ NeverStartsAt plan.now.plan said.now place }
{
    match item_at(said, place) {
        Some(Item::Operation(operation)) => never_starts(plan, &operation),
        _ => false,
    }
}

// A place goes to the end, where it is one.
fn note_place(places: &mut Vec<usize>, place: usize, is: bool) -> Result<(), AllocError>
    ensures { OnOk result ((p : ℕ) → Contains places.new.items p ↔ (Contains places.old.items p ⊎ ((p ≡ place) × IsTrue is))) }
{
    if !is {
        return Ok(());
    }
    places.extend_from_slice(&[place])?;
    Ok(())
}

// The places of the records that say such operations.
fn never_said(alloc: Global, plan: &Plan, said: &[Option<Item>]) -> Result<Vec<usize>, AllocError>
    ensures { IfOk result (λ places. AreNeverBelow plan.now.plan said.now (length said.now) places.items) }
{
    let mut places = Vec::new(alloc);
    for place in 0..said.len() {
        note_place(&mut places, place, never_starts_at(plan, said, place))?;
    }
    Ok(places)
}

// The same of records.
fn never_starting(alloc: Global, plan: &Plan, records: &[Fields]) -> Result<Vec<usize>, AllocError>
    ensures { IfOk result (λ places. (place : ℕ) → Contains places.items place ↔ NeverStartsIn plan.now.plan (texts_of records.now) place) }
{
    let said = sayings_of(alloc, records)?;
    let places = never_said(alloc, plan, &said)?;
    Ok(places)
}

// Those of a text.
fn never_starting_of(alloc: Global, plan: &Plan, text: &[u8]) -> Result<NeverStarting, AllocError>
    ensures exactly { IfOk result (λ t. AreNeverStarting plan.now.plan text.now t.places.items) }
    ensures lines { IfOk result (λ t. BeginOn text.now t.lines.items) }
{
    let TextRecords { records, lines } = records_of_text(alloc, text)?;
    let places = never_starting(alloc, plan, &records)?;
    Ok(NeverStarting { places, lines })
}

// The warning of a record that never starts.
fn never_text(alloc: Global, line: u64) -> Result<String, AllocError>
    ensures { IfOk result (λ text. (wrong : List ℕ) × (string_bytes text ≡ codes "warning: line " ++ decimal line ++ codes ": " ++ wrong)) }
{
    let wrong =
        "operation: no open interval to come of its workstation has the servers, R1 and R2 that it needs: it never starts";
    let text = format!(in alloc; "warning: line {line}: {wrong}")?;
    Ok(text)
}

// A line for each of these records that never start.
fn lines_never(alloc: Global, lines: &[u64], places: &[usize]) -> Result<Vec<String>, AllocError>
    ensures { IfOk result (λ told. AllZip (WarnsFrom lines.now) places.now (map string_bytes told.items)) }
{
    let mut told = Vec::new(alloc);
    for place in places {
        told.push(never_text(alloc, line_of(lines, *place))?)?;
    }
    Ok(told)
}

// A line for each of these warnings of a text by itself.
fn lines_warned(
    alloc: Global,
    found: &TextWarnings,
    warnings: &[RecordWarning],
) -> Result<Vec<String>, AllocError>
    ensures { IfOk result (λ told. AllZip (WarnsFrom found.now.lines.items) (map (λ (w : WarningValue). w.place) warnings.now) (map string_bytes told.items)) }
{
    let mut told = Vec::new(alloc);
    for warning in warnings {
        told.push(warning_text(alloc, warning, found)?)?;
    }
    Ok(told)
}

// How many more warnings there are than are told goes to the end, if there are.
fn warn_more(alloc: Global, told: &mut Vec<String>, count: usize) -> Result<(), AllocError>
    ensures { OnOk result (map string_bytes told.new.items ≡ map string_bytes told.old.items ++ more_warnings (count - MOST_TOLD)) }
{
    let more = count.saturating_sub(MOST_TOLD);
    if more == 0 {
        return Ok(());
    }
    told.push(format!(in alloc; "warning: {more} more")?)?;
    Ok(())
}

// What a text is warned of by itself.
fn warned_alone(alloc: Global, text: &[u8], found: &TextWarnings) -> Result<Vec<String>, AllocError>
    requires { BeginOn text.now found.now.lines.items }
    ensures { IfOk result (λ told. AreWarned text.now (map (λ (w : WarningValue). w.place) found.now.warnings.items) (map string_bytes told.items)) }
{
    let mut told = lines_warned(alloc, found, first_of(&found.warnings))?;
    warn_more(alloc, &mut told, found.warnings.len())?;
    Ok(told)
}

// What it is warned of beside a plan.
fn warned_never(
    alloc: Global,
    text: &[u8],
    found: &NeverStarting,
) -> Result<Vec<String>, AllocError>
    requires { BeginOn text.now found.now.lines.items }
    ensures { IfOk result (λ told. AreWarned text.now found.now.places.items (map string_bytes told.items)) }
{
    let mut told = lines_never(alloc, &found.lines, first_of(&found.places))?;
    warn_more(alloc, &mut told, found.places.len())?;
    Ok(told)
}

/// What a text that is to be an addition or an extension is warned of, by itself and then beside a plan at its clock:
/// operations that can't be in time, and operations that never start, since their workstations have no open interval to come
/// in which they may run. A line for each of the first `MOST_TOLD` of either kind, and how many more there are. The plan may
/// take them all the same. It fails for want of memory only.
pub fn warned_beside(alloc: Global, plan: &Plan, text: &[u8]) -> Result<Vec<String>, AllocError>
    ensures { IfOk result (λ told. AreWarningsBeside plan.now.plan text.now (map string_bytes told.items)) }
{
    let alone = warnings_of_text(alloc, text)?;
    let mut told = warned_alone(alloc, text, &alone)?;
    let beside = never_starting_of(alloc, plan, text)?;
    let mut more = warned_never(alloc, text, &beside)?;
    told.append(&mut more)?;
    Ok(told)
}
