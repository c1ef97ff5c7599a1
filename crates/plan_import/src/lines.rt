// The records of a text of comma-separated fields, whatever their lengths, each with the line where it begins.

ghost use Rattle.std.specs.Prelude.{◌≡◌, IfOk, length};
ghost use Rattle.plan_import.specs.TextRecords.{AreRecordsOf, texts_of};
ghost use Rattle.plan_import.specs.Lines.{BeginOn};
ghost use Rattle.plan_import.specs.Denoting.{DenotesPlansOf, DenotesAdditionsOf, DenotesExtensionsOf};

mod lines;
mod reading;

use lines::lines_of_text;
use reading::records_of_bytes;
use std::alloc::{AllocError, Global};

/// The records of a text, and where they begin.
#[derive(Drop)]
pub struct TextRecords {
    /// The fields of each record, as many as it has.
    pub records: Vec<Vec<Vec<u8>>>,
    /// The line on which each record begins, from 1. A line ends with a line feed, a blank one too, and one in quotes.
    pub lines: Vec<u64>,
}

/// The records of a text of comma-separated fields, in their order, and the line of each. There is no header, and a byte
/// order mark at the front is left out. The only error is want of memory. (Records and lines: this project's own.)
pub fn records_of_text(alloc: Global, text: &[u8]) -> Result<TextRecords, AllocError>
    ensures records { IfOk result (λ found. AreRecordsOf text.now (texts_of found.records.items)) }
    ensures lines { IfOk result (λ found. BeginOn text.now found.lines.items) }
    ensures each { IfOk result (λ found. length found.lines.items ≡ length found.records.items) }
    ensures plans { IfOk result (λ found. DenotesPlansOf text.now (texts_of found.records.items)) }
    ensures additions { IfOk result (λ found. DenotesAdditionsOf text.now (texts_of found.records.items)) }
    ensures extensions { IfOk result (λ found. DenotesExtensionsOf text.now (texts_of found.records.items)) }
{
    let records = records_of_bytes(alloc, text)?;
    let lines = lines_of_text(alloc, text)?;
    Ok(TextRecords { records, lines })
}
