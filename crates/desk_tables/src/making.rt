// The tables of a desk at which nothing is loaded.
ghost use Rattle.std.specs.Prelude.{◌≡◌, ◌≢◌, false, IfErr, IsTrue, OnOk};
ghost use Rattle.sqlite.specs.Held.{state};
ghost use Rattle.sqlite.specs.State.{HasCleanDisk, Survives};
ghost use Rattle.plan_basics.specs.declared.Refusal.{Refusal};
ghost use Rattle.store_schema.specs.Tables.{no_schema};
ghost use Rattle.plan_records.specs.Answer.{refused};
ghost use Rattle.desk_tables.specs.Faults.{IsOpeningRefusal};
ghost use Rattle.desk_tables.specs.Shut.{IsOpenAfter};
ghost use Rattle.plan_writes.specs.Within.{Begins, IsCommitted, LeavesMade};

use super::faults::{opening_refusal, refusal_told};
use plan_basics::Refusal;
use plan_writes::create_tables;
use sqlite::{Alter, Connection};

/// Makes the tables of a desk at which nothing is loaded, in one transaction. Refused as `Damaged` where a name of theirs is
/// taken, and the store is open then; as `Memory` for want of memory, as `Store` for any other fault of the store.
pub fn make_tables<S: Alter>(conn: &mut Connection<S>) -> Result<(), Refusal>
    requires { conn.old.in_transaction ≡ false }
    ensures idle { conn.new.in_transaction ≡ false }
    ensures ok { HasCleanDisk (state S.Store conn.new) → OnOk result (IsCommitted Begins (state S.Store conn.old) (state S.Store conn.new)) }
    ensures refused { IfErr result IsOpeningRefusal }
    ensures still_open { IfErr result (λ r. r ≡ Refusal.Damaged → HasCleanDisk (state S.Store conn.new) → IsTrue (state S.Store conn.new).is_open) }
    ensures damaged { IfErr result (λ r. r ≡ Refusal.Damaged → HasCleanDisk (state S.Store conn.new) → (state S.Store conn.old).committed.schema ≢ no_schema) }
    ensures undone { IfErr result (λ r. HasCleanDisk (state S.Store conn.new) → IsOpenAfter (refused r) (state S.Store conn.new) → (state S.Store conn.new).committed ≡ (state S.Store conn.old).committed) }
    ensures crash { Survives (state S.Store conn.old) (state S.Store conn.new) (LeavesMade Begins (state S.Store conn.old)) }
{
    match create_tables(conn) {
        Ok(()) => Ok(()),
        Err(error) => Err(refusal_told(conn, opening_refusal(&error))),
    }
}
