// Changed rows and gone keys, in one transaction.
ghost use Rattle.std.specs.Prelude.{◌≡◌, false, IsTrue, OnErr, OnOk};
ghost use Rattle.sqlite.specs.Held.{state};
ghost use Rattle.sqlite.specs.State.{HasCleanDisk, Survives};
ghost use Rattle.store_schema.specs.WrittenTables.{written};
ghost use Rattle.plan_writes.specs.Within.{IsCommitted, IsUndone, LeavesMade, Rewrites};

use crate::rows::write_and_drop;
use sqlite::{Alter, Connection, Error};
use store_schema::{PlanRow, RowKey};

/// Writes the rows that changed, and takes out those that are gone, in one transaction: wholly or not at all.
pub fn write_changes<S: Alter>(
    conn: &mut Connection<S>,
    rows: &[PlanRow],
    gone: &[RowKey],
) -> Result<(), Error>
    requires { conn.old.in_transaction ≡ false }
    ensures idle { conn.new.in_transaction ≡ false }
    ensures ok { HasCleanDisk (state S.Store conn.new) → OnOk result (IsCommitted (Rewrites (written rows.now gone.now)) (state S.Store conn.old) (state S.Store conn.new)) }
    ensures err { HasCleanDisk (state S.Store conn.new) → IsTrue (state S.Store conn.new).is_open → OnErr result (IsUndone (state S.Store conn.old) (state S.Store conn.new)) }
    ensures crash { Survives (state S.Store conn.old) (state S.Store conn.new) (LeavesMade (Rewrites (written rows.now gone.now)) (state S.Store conn.old)) }
{
    prove!(conn.is_autocommit());
    let mut tx = conn.transaction();
    write_and_drop(&mut tx, rows, gone)?;
    tx.commit()
}
