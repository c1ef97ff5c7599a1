// What a prepared call changes is written.
ghost use Rattle.std.specs.Prelude.{◌≡◌, false, IsTrue, OnErr, OnOk};
ghost use Rattle.sqlite.specs.Held.{state};
ghost use Rattle.sqlite.specs.State.{HasCleanDisk, Survives};
ghost use Rattle.desk_tables.specs.Calls.{change_of};
ghost use Rattle.plan_writes.specs.Within.{IsCommitted, IsUndone, LeavesMade, Rewrites};

use super::calls::PreparedCall;
use plan_writes::{write_changes, write_numbered};
use sqlite::{Alter, Connection, Error};

/// Writes what a prepared call changes, in one transaction: wholly or not at all, the receipt of a numbered request with
/// the rows that it changes.
pub fn write_call<S: Alter>(conn: &mut Connection<S>, call: &PreparedCall) -> Result<(), Error>
    requires { conn.old.in_transaction ≡ false }
    ensures idle { conn.new.in_transaction ≡ false }
    ensures ok { HasCleanDisk (state S.Store conn.new) → OnOk result (IsCommitted (Rewrites (change_of call.now)) (state S.Store conn.old) (state S.Store conn.new)) }
    ensures err { HasCleanDisk (state S.Store conn.new) → IsTrue (state S.Store conn.new).is_open → OnErr result (IsUndone (state S.Store conn.old) (state S.Store conn.new)) }
    ensures crash { Survives (state S.Store conn.old) (state S.Store conn.new) (LeavesMade (Rewrites (change_of call.now)) (state S.Store conn.old)) }
{
    match call {
        PreparedCall::Plain(prepared) => {
            let changes = prepared.changes();
            write_changes(conn, &changes.rows, &changes.gone)
        }
        PreparedCall::Numbered(step) => {
            let changes = step.prepared.changes();
            write_numbered(conn, &changes.rows, &changes.gone, &step.row)
        }
    }
}
