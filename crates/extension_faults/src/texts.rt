// What is told of a fault beside the plan: the line where its record begins, and what is wrong.
ghost use Rattle.std.specs.Prelude.{◌≡◌, ◌++◌, ℕ, List, codes, decimal, IfOk};
ghost use Rattle.std.specs.String.{string_bytes};
ghost use Rattle.text_faults.specs.TextFaults.{line_at};

use super::finding::BesideFaults;
use super::kinds::{FaultBeside, Wrong};
use std::alloc::{AllocError, Global};
use text_faults::line_of;

// What is wrong, and what it may be.
fn wrong_text(wrong: Wrong) -> &'static str {
    match wrong {
        Wrong::There => "occurrence: the plan has it already: an extension brings new ones",
        Wrong::NoWorkstation => "operation: workstation: the plan has none of this name",
        Wrong::NoResource => "need: special resource: the plan has none of this name",
        Wrong::BeyondQuantity => "need: amount: more than the plan has of the special resource",
        Wrong::NoPredecessor => {
            "dependency: predecessor: neither the extension nor what stays of the plan has it"
        }
        Wrong::NoSuccessor => {
            "dependency: successor: neither the extension nor what stays of the plan has it"
        }
        Wrong::Deleted => "dependency: predecessor: it is deleted: nothing can wait for it",
        Wrong::UnderWay => {
            "dependency: successor: it neither waits nor is ready: nothing can come before it"
        }
    }
}

// A line's number, and what is told of it.
fn numbered(alloc: Global, line: u64, wrong: &str) -> Result<String, AllocError>
    ensures { IfOk result (λ text. string_bytes text ≡ codes "line " ++ decimal line ++ codes ": " ++ wrong.now) }
{
    let text = format!(in alloc; "line {line}: {wrong}")?;
    Ok(text)
}

/// What is told of a fault beside the plan: `line N: `, the line in which its record begins, and what is wrong. It fails for
/// want of memory only.
pub fn beside_text(
    alloc: Global,
    told: &BesideFaults,
    fault: &FaultBeside,
) -> Result<String, AllocError>
    ensures { IfOk result (λ text. (wrong : List ℕ) × (string_bytes text ≡ codes "line " ++ decimal (line_at told.now.lines.items fault.now.place) ++ codes ": " ++ wrong)) }
{
    let line = line_of(&told.lines, fault.place);
    let wrong = wrong_text(fault.wrong);
    numbered(alloc, line, wrong)
}
