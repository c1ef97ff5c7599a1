// The rows of the table of receipts, as receipts' rows.
ghost use Rattle.std.specs.Prelude.{Any, IfOk, MatchOption};
ghost use Rattle.std.specs.List.{AllZip};
ghost use Rattle.plan_items.specs.Parts.{IsReading};
ghost use Rattle.store_reads.specs.Receipts.{IsNoReceipt, IsReceiptStoredAs};

use super::columns::{bytes, number, text};
use sqlite::Row;
use std::alloc::{AllocError, Global};
use store_schema::ReceiptRow;

// The columns of a row of `receipt`, as they stand in it.
#[derive(Clone, Copy)]
struct Parts<'a> {
    tracker: &'a [u8],
    number: i64,
    text: &'a [u8],
    reply: &'a [u8],
}

// The columns of a row of `receipt`. In front of them stands the rowid.
fn parts_of(row: &Row) -> Option<Parts<'_>>
    ensures { MatchOption result (IsNoReceipt row.now) (λ found.
        IsReceiptStoredAs row.now (record { tracker = found.tracker.now; number = found.number; text = found.text.now; reply = found.reply.now })) }
{
    if row.column_count() != 5 {
        return None;
    }
    Some(Parts {
        tracker: text(row, 1)?,
        number: number(row, 2)?,
        text: bytes(row, 3)?,
        reply: text(row, 4)?,
    })
}

// A row of `receipt`, with its columns copied; `None` where its values are of other kinds.
fn read_receipt(alloc: Global, row: &Row) -> Result<Option<ReceiptRow>, AllocError>
    ensures { IfOk result (IsReading (IsReceiptStoredAs row.now)) }
{
    let Some(found) = parts_of(row) else {
        return Ok(None);
    };
    let tracker = Vec::from_slice(alloc, found.tracker)?;
    let text = Vec::from_slice(alloc, found.text)?;
    let reply = Vec::from_slice(alloc, found.reply)?;
    Ok(Some(ReceiptRow::new(tracker, found.number, text, reply)))
}

/// The receipts' rows that these rows of their table are, one for each and in their order. Answers `None` where one of
/// them is none.
pub fn decode_receipts(alloc: Global, rows: &[Row]) -> Result<Option<Vec<ReceiptRow>>, AllocError>
    ensures { IfOk result (λ found. MatchOption found
        (Any IsNoReceipt rows.now)
        (λ receipts. AllZip IsReceiptStoredAs rows.now receipts.items)) }
{
    let mut receipts = Vec::new(alloc);
    for row in rows {
        let Some(receipt) = read_receipt(alloc, row)? else {
            return Ok(None);
        };
        receipts.push(receipt)?;
    }
    Ok(Some(receipts))
}
