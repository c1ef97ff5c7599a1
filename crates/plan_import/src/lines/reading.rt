// The records of a text, read one after the other.
ghost use Rattle.std.specs.Prelude.{◌≡◌, IfOk};
ghost use Rattle.csv.specs.Records.{fields_of as row_fields};
ghost use Rattle.plan_items.specs.Items.{fields_of};
ghost use Rattle.plan_import.specs.TextRecords.{AreRecordsOf, texts_of};

use csv::{ByteRecord, ReaderBuilder};
use std::alloc::{AllocError, Global};

// The fields of a record, each in a vector of its own.
fn own_fields(alloc: Global, row: &ByteRecord) -> Result<Vec<Vec<u8>>, AllocError>
    ensures { IfOk result (λ v. fields_of v.items ≡ row_fields row.now) }
{
    let mut fields = Vec::with_capacity(alloc, row.len())?;
    for field in row {
        fields.push(field.to_vec(alloc)?)?;
    }
    Ok(fields)
}

// All records of a text. A reader of bytes in memory doesn't fail, so that any error is want of memory.
pub fn records_of_bytes(alloc: Global, text: &[u8]) -> Result<Vec<Vec<Vec<u8>>>, AllocError>
    ensures { IfOk result (λ v. AreRecordsOf text.now (texts_of v.items)) }
{
    let mut reader = ReaderBuilder::new()
        .has_headers(false)
        .flexible(true)
        .from_reader(alloc, text);
    let mut row = ByteRecord::new(alloc);
    let mut records = Vec::new(alloc);
    for _ in 0..u64::MAX {
        match reader.read_byte_record(&mut row) {
            Ok(true) => records.push(own_fields(alloc, &row)?)?,
            Ok(false) => return Ok(records),
            Err(_) => return Err(AllocError),
        }
    }
    Err(AllocError)
}
