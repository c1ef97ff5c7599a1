// The faults of a text that adds to a plan, and what is told of each.
ghost use Rattle.std.specs.Prelude.{◌≡◌, ◌≢◌, ◌↔◌, ◌≤◌, ◌++◌, ℕ, List, [], codes, decimal, IfOk};
ghost use Rattle.std.specs.List.{AllPairs};
ghost use Rattle.std.specs.String.{string_bytes};
ghost use Rattle.plan_import.specs.Lines.{BeginOn};
ghost use Rattle.text_faults.specs.TextFaults.{line_at};
ghost use Rattle.text_faults.specs.AddedTexts.{AreFaultsOfAddedText, TextDenotesSomeAdded};

use super::faults::{AddedFault, AddedText, PlacedFault};
use super::finding::faults_of_added;
use crate::{TextFaults, fault_text};
use plan_import::{TextRecords, records_of_text};
use record_faults::{Fault, RecordFault};
use std::alloc::{AllocError, Global};

/// The faults of a text that adds to a plan.
#[derive(Drop)]
pub struct AddedTextFaults {
    /// What the text is to be.
    pub added: AddedText,
    /// The faults of its records, in the order of their places, each once.
    pub faults: Vec<PlacedFault>,
    /// The line in which each record begins, as what is told of a record's faults takes it: without faults of its own.
    pub read: TextFaults,
}

/// The faults of a text that is to be an addition, or an extension, in the order of its records, each once; there is none
/// exactly where the text denotes one. What is judged with the plan is none. A byte order mark, line ends of either kind
/// and quotes are no faults. It fails for want of memory only.
pub fn faults_of_added_text(
    alloc: Global,
    added: AddedText,
    text: &[u8],
) -> Result<AddedTextFaults, AllocError>
    ensures exactly { IfOk result (λ t. AreFaultsOfAddedText added text.now t.faults.items) }
    ensures none { IfOk result (λ t. (t.faults.items ≡ []) ↔ TextDenotesSomeAdded added text.now) }
    ensures in_order { IfOk result (λ t. AllPairs (λ a b. a.place ≤ b.place) t.faults.items) }
    ensures once { IfOk result (λ t. AllPairs (λ a b. a ≢ b) t.faults.items) }
    ensures lines { IfOk result (λ t. BeginOn text.now t.read.lines.items) }
    ensures added { IfOk result (λ t. t.added ≡ added) }
    ensures apart { IfOk result (λ t. t.read.faults.items ≡ []) }
{
    let TextRecords { records, lines } = records_of_text(alloc, text)?;
    let faults = faults_of_added(alloc, added, &records)?;
    let read = TextFaults {
        faults: Vec::new(alloc),
        lines,
        circle: None,
    };
    Ok(AddedTextFaults {
        added,
        faults,
        read,
    })
}

// The line of a record; of the last one, where there is no record at the place, and 1 where there is none at all.
fn line_of(lines: &[u64], place: usize) -> u64
    ensures { result ≡ line_at lines.now place }
{
    match lines.get(place) {
        Some(line) => *line,
        None => lines.last().copied().unwrap_or(1),
    }
}

// A line's number, and what is told of it.
fn numbered(alloc: Global, line: u64, wrong: &str) -> Result<String, AllocError>
    ensures { IfOk result (λ text. string_bytes text ≡ codes "line " ++ decimal line ++ codes ": " ++ wrong.now) }
{
    let text = format!(in alloc; "line {line}: {wrong}")?;
    Ok(text)
}

// What such a text is called.
fn name_of(added: AddedText) -> &'static str {
    match added {
        AddedText::Addition => "an addition",
        AddedText::Extension => "an extension",
    }
}

// What is wrong beside what may be with a plan's record, and what it may be.
fn wrong_text(
    alloc: Global,
    added: AddedText,
    fault: &AddedFault,
    lines: &[u64],
) -> Result<String, AllocError> {
    match *fault {
        AddedFault::NotAdded => {
            let name = name_of(added);
            format!(in alloc;
                "{name} brings no workstation, open interval or special resource: its records are O, P, D and N"
            )
        }
        AddedFault::AnotherOccurrence(first) => {
            let first = line_of(lines, first);
            format!(in alloc; "occurrence: another is in line {first}: an addition is of one")
        }
        AddedFault::Elsewhere => format!(in alloc;
            "dependency: one of its operations must be of an occurrence that is added"
        ),
        AddedFault::OfRecord(_) => format!(in alloc;
            "occurrence: the addition has none: it must have one"
        ),
    }
}

// What is told of a fault that a plan's record has no words for.
fn told_of(
    alloc: Global,
    added: AddedText,
    fault: &PlacedFault,
    lines: &[u64],
) -> Result<String, AllocError>
    ensures { IfOk result (λ text. (wrong : List ℕ) × (string_bytes text ≡ codes "line " ++ decimal (line_at lines.now fault.now.place) ++ codes ": " ++ wrong)) }
{
    let line = line_of(lines, fault.place);
    let wrong = wrong_text(alloc, added, &fault.fault, lines)?;
    numbered(alloc, line, &wrong)
}

/// What is told of a fault of a text that adds to a plan: `line N: `, the line in which its record begins, what is wrong,
/// and what it may be, in the words of a plan's faults where it is one of these. That there is no occurrence is told with
/// the line of the last record, or line 1 where there is none. It fails for want of memory only.
pub fn added_fault_text(
    alloc: Global,
    fault: &PlacedFault,
    told: &AddedTextFaults,
) -> Result<String, AllocError>
    ensures { IfOk result (λ text. (wrong : List ℕ) × (string_bytes text ≡ codes "line " ++ decimal (line_at told.now.read.lines.items fault.now.place) ++ codes ": " ++ wrong)) }
{
    let AddedFault::OfRecord(of_record) = fault.fault else {
        return told_of(alloc, told.added, fault, &told.read.lines);
    };
    if matches!(of_record, Fault::Missing(_)) {
        return told_of(alloc, told.added, fault, &told.read.lines);
    }
    let of_record = RecordFault {
        place: fault.place,
        fault: of_record,
    };
    fault_text(alloc, &of_record, &told.read)
}
