// What is wrong with an extension's text as a whole.
ghost use Rattle.std.specs.Prelude.{◌≡◌, ◌↔◌, Contains, IfOk, MatchOption};
ghost use Rattle.plan_import.specs.Lines.{BeginOn};
ghost use Rattle.record_faults.specs.Sayings.{texts_of};
ghost use Rattle.record_faults.specs.declared.faults.RecordFault.{RecordFault};
ghost use Rattle.extension_faults.specs.Limits.{AreFaultsOfWhole, AreFaultsOfWholeText};
ghost use Rattle.extension_faults.specs.Whole.{ClosesIn, ClosesInText, IsReturnTold, NoneReturnsIn, NoneReturnsInText};

use super::circles::circle_said;
use super::limits::limits_told;
use plan_import::{TextRecords, records_of_text};
use plan_reasons::Plan;
use record_faults::{Circle, Fault, Fields, RecordFault, sayings_of};
use std::alloc::{AllocError, Global};
use text_faults::TextFaults;

// A path that returns by way of these records, where one does.
fn circle_in(alloc: Global, plan: &Plan, records: &[Fields]) -> Result<Option<Circle>, AllocError>
    ensures { IfOk result (λ found. MatchOption found (NoneReturnsIn plan.now.plan.contents (texts_of records.now)) (λ c. ClosesIn plan.now.plan.contents (texts_of records.now) c.place c.first c.way.items)) }
{
    let said = sayings_of(alloc, records)?;
    let found = circle_said(alloc, plan, &said)?;
    Ok(found)
}

// The fault of the record that closes a path, if one does.
fn return_told(alloc: Global, circle: &Option<Circle>) -> Result<Vec<RecordFault>, AllocError>
    ensures { IfOk result (λ faults. (f : RecordFault) → Contains faults.items f ↔ IsReturnTold circle.now f) }
{
    let Some(circle) = circle else {
        return Ok(Vec::new(alloc));
    };
    let fault = RecordFault {
        place: circle.place,
        fault: Fault::Returns,
    };
    let told = Vec::from_slice(alloc, &[fault])?;
    Ok(told)
}

// The limits that these records break, and the fault of the record that closes a path, if one does.
fn faults_in(
    alloc: Global,
    plan: &Plan,
    records: &[Fields],
    circle: &Option<Circle>,
) -> Result<Vec<RecordFault>, AllocError>
    ensures { IfOk result (λ faults. AreFaultsOfWhole plan.now.plan.contents (texts_of records.now) circle.now faults.items) }
{
    let said = sayings_of(alloc, records)?;
    let mut faults = limits_told(alloc, plan, &said)?;
    let told = return_told(alloc, circle)?;
    faults.extend_from_slice(&told)?;
    Ok(faults)
}

/// What is wrong with an extension's text as a whole beside the plan that it is to extend, where no record has a fault: with
/// what stays of the plan it has more occurrences, operations or pairs than a plan may have, which is told at the last record
/// of that kind; or a path of dependencies returns, by way of the text and of what stays of the plan, which is told at a
/// record that closes it. It fails for want of memory only.
pub fn whole_beside(alloc: Global, plan: &Plan, text: &[u8]) -> Result<TextFaults, AllocError>
    ensures circle { IfOk result (λ t. MatchOption t.circle (NoneReturnsInText plan.now.plan.contents text.now) (λ c. ClosesInText plan.now.plan.contents text.now c.place c.first c.way.items)) }
    ensures exactly { IfOk result (λ t. AreFaultsOfWholeText plan.now.plan.contents text.now t.circle t.faults.items) }
    ensures lines { IfOk result (λ t. BeginOn text.now t.lines.items) }
{
    let TextRecords { records, lines } = records_of_text(alloc, text)?;
    let circle = circle_in(alloc, plan, &records)?;
    let faults = faults_in(alloc, plan, &records, &circle)?;
    Ok(TextFaults {
        faults,
        lines,
        circle,
    })
}
