// What a plan's text is warned of, and what is told of it.
ghost use Rattle.std.specs.Prelude.{◌≡◌, ◌++◌, ℕ, List, codes, decimal, IfOk};
ghost use Rattle.std.specs.String.{string_bytes};
ghost use Rattle.plan_import.specs.Lines.{BeginOn};
ghost use Rattle.text_faults.specs.TextFaults.{AreWarningsOfText, line_at};

use super::texts::line_of;
use plan_import::{TextRecords, records_of_text};
use record_faults::{RecordWarning, Warning, warnings_of};
use std::alloc::{AllocError, Global};

/// The warnings of a text.
#[derive(Drop)]
pub struct TextWarnings {
    /// Those of its records, in the order of their places.
    pub warnings: Vec<RecordWarning>,
    /// The line in which each record begins. The first line is 1.
    pub lines: Vec<u64>,
}

/// What the records of a plan's text are warned of, in their order; a plan may have them all the same. It fails for want of
/// memory only.
pub fn warnings_of_text(alloc: Global, text: &[u8]) -> Result<TextWarnings, AllocError>
    ensures exactly { IfOk result (λ t. AreWarningsOfText text.now t.warnings.items) }
    ensures lines { IfOk result (λ t. BeginOn text.now t.lines.items) }
{
    let TextRecords { records, lines } = records_of_text(alloc, text)?;
    let warnings = warnings_of(alloc, &records)?;
    Ok(TextWarnings { warnings, lines })
}

// What a record is warned of.
fn warned_of(warning: Warning) -> &'static str {
    match warning {
        Warning::NeverOpens => "workstation: has no open interval: nothing starts on it",
        Warning::BeyondIntervals => {
            "operation: needs more than each open interval of its workstation has of servers, R1 or R2: it never starts"
        }
        Warning::TooLate => {
            "operation: its deadline is too early: from its not-before or its input arrival on, its duration goes past it"
        }
    }
}

// A line's number, and what the record there is warned of.
fn warned_text(alloc: Global, line: u64, wrong: &str) -> Result<String, AllocError>
    ensures { IfOk result (λ text. string_bytes text ≡ codes "warning: line " ++ decimal line ++ codes ": " ++ wrong.now) }
{
    let text = format!(in alloc; "warning: line {line}: {wrong}")?;
    Ok(text)
}

/// What is told of a warning: `warning: line N: `, the line in which its record begins, and what it is warned of. It fails
/// for want of memory only.
pub fn warning_text(
    alloc: Global,
    warning: &RecordWarning,
    told: &TextWarnings,
) -> Result<String, AllocError>
    ensures { IfOk result (λ text. (wrong : List ℕ) × (string_bytes text ≡ codes "warning: line " ++ decimal (line_at told.now.lines.items warning.now.place) ++ codes ": " ++ wrong)) }
{
    let line = line_of(&told.lines, warning.place);
    let wrong = warned_of(warning.warning);
    warned_text(alloc, line, wrong)
}
