// Receipts as rows of their table.
ghost use Rattle.std.specs.Prelude.{◌≡◌, ◌<◌, ◌≤◌, pos, true, length, IfOk, MatchOption};
ghost use Rattle.plan_basics.specs.declared.limits.TheConstants.{GREATEST_REQUEST_NUMBER, LONGEST_REQUEST_TEXT};
ghost use Rattle.plan_basics.specs.Names.{IsName};
ghost use Rattle.plan_laws.specs.plan_items.specs.Parts.{IsReading};
ghost use Rattle.plan_laws.specs.plan_records.specs.Receipts.{AreReceipts};
ghost use Rattle.plan_laws.specs.plan_records.specs.Step.{Receipts as LastReceipts};
ghost use Rattle.tracker_receipts.specs.Stored.{AreRowsOf, IsRequestText, IsRowOf, columns_of};

use super::kept::{Receipt, Receipts};
use super::replies::{keys_of_text, reply_text};
use plan_basics::TrackerName;
use plan_basics::limits::{GREATEST_REQUEST_NUMBER, LONGEST_REQUEST_TEXT};
use std::alloc::{AllocError, Global};
use std::marker::Model;

/// A row of the table of receipts, with its columns as they are stored.
#[derive(Drop)]
pub struct ReceiptRow {
    tracker: Vec<u8>,
    number: i64,
    text: Vec<u8>,
    reply: Vec<u8>,
}

impl Model for ReceiptRow {
    ghost use Rattle.tracker_receipts.specs.Stored.{Columns};

    ghost Value = { Columns };

    ghost view = { λ r. record { tracker = r.tracker.items; number = r.number; text = r.text.items; reply = r.reply.items } };
}

impl ReceiptRow {
    /// The row with these columns: a tracker's name, the request's number and text, which may be any bytes, and the keys
    /// that the reply named, as one text.
    pub fn new(tracker: Vec<u8>, number: i64, text: Vec<u8>, reply: Vec<u8>) -> ReceiptRow
        ensures { result ≡ record { tracker = tracker.items; number = number; text = text.items; reply = reply.items } }
    {
        ReceiptRow {
            tracker,
            number,
            text,
            reply,
        }
    }

    /// The row of a tracker's receipt: what is stored of it.
    pub fn of_receipt(
        alloc: Global,
        tracker: &TrackerName,
        receipt: &Receipt,
    ) -> Result<ReceiptRow, AllocError>
        requires { receipt.now.number ≤ GREATEST_REQUEST_NUMBER }
        ensures { IfOk result (λ row. row ≡ columns_of tracker.now receipt.now) }
    {
        let reply = reply_text(alloc, receipt.named())?;
        Ok(ReceiptRow::new(
            Vec::from_slice(alloc, tracker.as_bytes())?,
            receipt.number() as i64,
            Vec::from_slice(alloc, receipt.text())?,
            reply.into_bytes(),
        ))
    }

    /// The tracker's name, as it is stored.
    pub fn tracker_name(&self) -> &[u8]
        ensures { result.now ≡ self.now.tracker }
    {
        &self.tracker
    }

    /// The request's number, as it is stored.
    pub fn number(&self) -> i64
        ensures { result ≡ self.now.number }
    {
        self.number
    }

    /// The request's text.
    pub fn text(&self) -> &[u8]
        ensures { result.now ≡ self.now.text }
    {
        &self.text
    }

    /// The keys that the reply named, as one text.
    pub fn reply(&self) -> &[u8]
        ensures { result.now ≡ self.now.reply }
    {
        &self.reply
    }

    // The tracker, where its name is legal.
    fn tracker(&self) -> Option<TrackerName>
        ensures { MatchOption result (¬ IsName 8 self.now.tracker) (λ name. IsName 8 name × (name ≡ self.now.tracker)) }
    {
        TrackerName::from_text(&self.tracker)
    }

    // The well formed receipt whose row it is, where its tracker's name is legal.
    fn receipt(&self, alloc: Global) -> Result<Option<Receipt>, AllocError>
        requires { IsName 8 self.now.tracker }
        ensures { IfOk result (IsReading (IsRowOf self.now)) }
    {
        let Some(number) = number_of(self.number) else {
            return Ok(None);
        };
        let Some(text) = request_text(alloc, &self.text)? else {
            return Ok(None);
        };
        let Some(named) = keys_of_text(alloc, &self.reply)? else {
            return Ok(None);
        };
        Ok(Some(Receipt::new(number, text, named)))
    }
}

// A number that a tracker may use.
fn number_of(number: i64) -> Option<u64>
    ensures { IsReading (λ n. (0 < n) × (n ≤ GREATEST_REQUEST_NUMBER) × (number ≡ pos n)) result }
{
    if number < 1 || number > GREATEST_REQUEST_NUMBER as i64 {
        return None;
    }
    Some(number as u64)
}

// A copy of a text that a request may have.
fn request_text(alloc: Global, text: &[u8]) -> Result<Option<Vec<u8>>, AllocError>
    ensures { IfOk result (λ found. MatchOption found (LONGEST_REQUEST_TEXT < length text.now) (λ copy. IsRequestText text.now × (copy.items ≡ text.now))) }
{
    if text.len() > LONGEST_REQUEST_TEXT {
        return Ok(None);
    }
    Ok(Some(Vec::from_slice(alloc, text)?))
}

/// The receipts that have just these rows, in any order; `None` where there are none well formed: where a row is that of
/// no receipt, where a tracker has two, or where there are more rows than trackers may have receipts.
pub fn receipts_of(alloc: Global, rows: &[ReceiptRow]) -> Result<Option<Receipts>, AllocError>
    ensures { IfOk result (λ found. MatchOption found
        ((T : LastReceipts) → AreReceipts true T → ¬ AreRowsOf T rows.now)
        (λ T. AreReceipts true T × AreRowsOf T rows.now)) }
{
    let mut receipts = Receipts::new(alloc)?;
    for row in rows {
        let Some(tracker) = row.tracker() else {
            return Ok(None);
        };
        if !receipts.is_open_to(&tracker) {
            return Ok(None);
        }
        let Some(receipt) = row.receipt(alloc)? else {
            return Ok(None);
        };
        receipts.put(&tracker, receipt);
    }
    Ok(Some(receipts))
}
