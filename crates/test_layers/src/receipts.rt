//! The stored row of a tracker's receipt, and the receipts that are read of it.
use plan_basics::{OpKey, TrackerName};
use std::alloc::{AllocError, Global};
use tracker_receipts::{Receipt, ReceiptRow, Receipts, receipts_of};

// The fourth receipt of a tracker, which names an operation.
fn receipt(alloc: Global, key: &OpKey) -> Result<Receipt, AllocError> {
    let text = Vec::from_slice(alloc, b"ended 10")?;
    let named = Vec::from_slice(alloc, &[*key])?;
    Ok(Receipt::new(4, text, named))
}

// Whether the tracker's last receipt is its fourth, which names just this operation.
fn are_kept(receipts: &Receipts, tracker: &TrackerName, key: &OpKey) -> bool {
    match receipts.last(tracker) {
        Some(last) => last.number() == 4 && last.named() == [*key].as_slice(),
        None => false,
    }
}

// Whether a row has its reply as a text, and the receipts that have just this row keep it.
fn is_read_again(alloc: Global, row: ReceiptRow, tracker: &TrackerName, key: &OpKey) -> bool {
    let has_reply = row.reply() == b"PAYROLL/2024-03-01T22:00/020".as_slice();
    match receipts_of(alloc, &[row]) {
        Ok(Some(receipts)) => has_reply && are_kept(&receipts, tracker, key),
        _ => false,
    }
}

// Whether a receipt is stored and read again.
fn is_stored(alloc: Global, receipt: &Receipt, tracker: &TrackerName, key: &OpKey) -> bool {
    if receipt.number() != 4 {
        return false;
    }
    match ReceiptRow::of_receipt(alloc, tracker, receipt) {
        Ok(row) => is_read_again(alloc, row, tracker, key),
        Err(_) => false,
    }
}

// Whether the receipt of this key is stored and read again.
fn is_stored_of(alloc: Global, tracker: &TrackerName, key: &OpKey) -> bool {
    match receipt(alloc, key) {
        Ok(receipt) => is_stored(alloc, &receipt, tracker, key),
        Err(_) => false,
    }
}

/// A receipt is stored, and read again.
pub fn a_receipt_is_stored_and_read_again(alloc: Global) -> Option<bool> {
    let tracker = TrackerName::from_text(b"T1")?;
    let key = OpKey::from_text(b"PAYROLL/2024-03-01T22:00/020")?;
    Some(is_stored_of(alloc, &tracker, &key))
}
