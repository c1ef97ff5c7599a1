// Changed rows and gone keys with a tracker's receipt, in one transaction.
ghost use Rattle.std.specs.Prelude.{◌≡◌, false, IsTrue, OnErr, OnOk};
ghost use Rattle.sqlite.specs.Held.{state};
ghost use Rattle.sqlite.specs.State.{HasCleanDisk, Survives};
ghost use Rattle.store_schema.specs.Receipts.{written_numbered};
ghost use Rattle.plan_writes.specs.Within.{IsCommitted, IsUndone, LeavesMade, Rewrites, RunsWithin};

use crate::receipt_rows::put_receipt;
use crate::rows::write_and_drop;
use sqlite::{Alter, Connection, Error, Transaction};
use store_schema::{PlanRow, ReceiptRow, RowKey};

// Writes the rows that changed, takes out those that are gone, and puts the tracker's receipt in.
fn write_with_receipt<S: Alter>(
    tx: &mut Transaction<'_, S>,
    rows: &[PlanRow],
    gone: &[RowKey],
    receipt: &ReceiptRow,
) -> Result<(), Error>
    ensures same_reference { tx.new.conn.ghost_name ≡ tx.old.conn.ghost_name }
    ensures written { RunsWithin (Rewrites (written_numbered rows.now gone.now receipt.now)) (state S.Store tx.old.conn.now) (state S.Store tx.new.conn.now) result }
{
    write_and_drop(tx, rows, gone)?;
    put_receipt(tx, receipt)
}

/// Writes the rows that changed, takes out those that are gone, and puts the receipt of the tracker whose request
/// changed them in place of its last, in one transaction: wholly or not at all, so that a stop leaves the plan and the
/// receipt together, or neither.
pub fn write_numbered<S: Alter>(
    conn: &mut Connection<S>,
    rows: &[PlanRow],
    gone: &[RowKey],
    receipt: &ReceiptRow,
) -> Result<(), Error>
    requires { conn.old.in_transaction ≡ false }
    ensures idle { conn.new.in_transaction ≡ false }
    ensures ok { HasCleanDisk (state S.Store conn.new) → OnOk result (IsCommitted (Rewrites (written_numbered rows.now gone.now receipt.now)) (state S.Store conn.old) (state S.Store conn.new)) }
    ensures err { HasCleanDisk (state S.Store conn.new) → IsTrue (state S.Store conn.new).is_open → OnErr result (IsUndone (state S.Store conn.old) (state S.Store conn.new)) }
    ensures crash { Survives (state S.Store conn.old) (state S.Store conn.new) (LeavesMade (Rewrites (written_numbered rows.now gone.now receipt.now)) (state S.Store conn.old)) }
{
    prove!(conn.is_autocommit());
    let mut tx = conn.transaction();
    write_with_receipt(&mut tx, rows, gone, receipt)?;
    tx.commit()
}
