// The faults of a text.
ghost use Rattle.std.specs.Prelude.{◌≡◌, ◌≢◌, ◌↔◌, ◌≤◌, [], true, All, Contains, IfOk, IfSome, IsSome};
ghost use Rattle.record_faults.specs.Faults.{IsFault, IsCircleOf, DenoteSome};
ghost use Rattle.record_faults.specs.Sayings.{texts_of};
ghost use Rattle.record_faults.specs.declared.faults.Fault.TheVariants as variant;
ghost use Rattle.record_faults.specs.declared.faults.RecordFault.{RecordFault};
ghost use Rattle.std.specs.List.{AllPairs};
ghost use Rattle.plan_import.specs.Lines.{BeginOn};
ghost use Rattle.text_faults.specs.TextFaults.{AreFaultsOfText, ReturnsIn, TextDenotesSome};

use plan_import::{TextRecords, records_of_text};
use record_faults::{Circle, Fault, Fields, RecordFault, circle_of_records, faults_of};
use std::alloc::{AllocError, Global};

/// The faults of a text.
#[derive(Drop)]
pub struct TextFaults {
    /// The faults of its records, in the order of their places, each once.
    pub faults: Vec<RecordFault>,
    /// The line in which each record begins. The first line is 1.
    pub lines: Vec<u64>,
    /// A path of dependencies that returns, where that is the fault.
    pub circle: Option<Circle>,
}

// Whether a path that returns is among the faults.
fn has_return(faults: &[RecordFault]) -> bool
    ensures seen { (f : RecordFault) → Contains faults.now f → f.fault ≡ variant.Returns → result ≡ true }
    ensures there { result ≡ true → (f : RecordFault) × Contains faults.now f × (f.fault ≡ variant.Returns) }
{
    faults.iter().any(|fault| fault.fault == Fault::Returns)
}

// A path that returns, where one is among the faults of the records.
fn circle_told(
    alloc: Global,
    records: &[Fields],
    faults: &[RecordFault],
) -> Result<Option<Circle>, AllocError>
    requires faults { All (λ f. IsFault (texts_of records.now) f.place f.fault) faults.now }
    requires none { (faults.now ≡ []) ↔ DenoteSome (texts_of records.now) }
    ensures told { IfOk result (λ circle. (f : RecordFault) → Contains faults.now f → f.fault ≡ variant.Returns → IsSome circle) }
    ensures alone { IfOk result (λ circle. IsSome circle → (f : RecordFault) × Contains faults.now f × (f.fault ≡ variant.Returns)) }
    ensures circle { IfOk result (λ circle. IfSome circle (λ c. IsCircleOf (texts_of records.now) c.place c.first c.way.items)) }
{
    if !has_return(faults) {
        return Ok(None);
    }
    let circle = circle_of_records(alloc, records)?;
    Ok(circle)
}

/// The faults of a plan's text, in the order of its records, each once; there is none exactly where the text denotes a plan.
/// A byte order mark, line ends of either kind and quotes are no faults. It fails for want of memory only.
pub fn faults_of_text(alloc: Global, text: &[u8]) -> Result<TextFaults, AllocError>
    ensures faults { IfOk result (λ t. AreFaultsOfText text.now t.faults.items) }
    ensures none { IfOk result (λ t. (t.faults.items ≡ []) ↔ TextDenotesSome text.now) }
    ensures in_order { IfOk result (λ t. AllPairs (λ a b. a.place ≤ b.place) t.faults.items) }
    ensures once { IfOk result (λ t. AllPairs (λ a b. a ≢ b) t.faults.items) }
    ensures lines { IfOk result (λ t. BeginOn text.now t.lines.items) }
    ensures told { IfOk result (λ t. (f : RecordFault) → Contains t.faults.items f → f.fault ≡ variant.Returns → IsSome t.circle) }
    ensures alone { IfOk result (λ t. IsSome t.circle → (f : RecordFault) × Contains t.faults.items f × (f.fault ≡ variant.Returns)) }
    ensures circle { IfOk result (λ t. IfSome t.circle (λ c. ReturnsIn text.now c.place c.first c.way.items)) }
{
    let TextRecords { records, lines } = records_of_text(alloc, text)?;
    let faults = faults_of(alloc, &records)?;
    let circle = circle_told(alloc, &records, &faults)?;
    Ok(TextFaults {
        faults,
        lines,
        circle,
    })
}
