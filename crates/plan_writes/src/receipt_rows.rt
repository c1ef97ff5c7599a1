// The table `receipt`.
ghost use Rattle.std.specs.Prelude.{◌≡◌};
ghost use Rattle.sqlite.specs.Held.{state};
ghost use Rattle.store_schema.specs.StoredPlans.{with_receipt};
ghost use Rattle.store_schema.specs.Receipts.{stored_receipt};
ghost use Rattle.plan_writes.specs.Within.{Rewrites, RunsWithin};

use crate::runs::run_text;
use sqlite::{Alter, Error, Transaction};
use store_schema::{PUT_RECEIPT, ReceiptRow, blob, int, letters};

/// Puts a tracker's receipt in, in place of its last.
pub fn put_receipt<S: Alter>(tx: &mut Transaction<'_, S>, receipt: &ReceiptRow) -> Result<(), Error>
    ensures same_reference { tx.new.conn.ghost_name ≡ tx.old.conn.ghost_name }
    ensures written { RunsWithin (Rewrites (with_receipt (stored_receipt receipt.now))) (state S.Store tx.old.conn.now) (state S.Store tx.new.conn.now) result }
{
    let number = receipt.number();
    run_text(
        tx,
        PUT_RECEIPT,
        &[
            letters(receipt.tracker_name()),
            int(&number),
            blob(receipt.text()),
            letters(receipt.reply()),
        ],
    )
}
