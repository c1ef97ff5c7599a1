// Tables of the first version that become those of the second.
ghost use Rattle.std.specs.Prelude.{◌≡◌, ◌≢◌, false, IfErr, IsTrue, OnErr, OnOk};
ghost use Rattle.sqlite.specs.Held.{state};
ghost use Rattle.sqlite.specs.State.{HasCleanDisk, Survives};
ghost use Rattle.store_schema.specs.Schema.{amount, quantity, first_schema, schema_10};
ghost use Rattle.plan_writes.specs.Faults.{FindsFree, IsOfNames};
ghost use Rattle.plan_writes.specs.Upgrading.{Adds, Upgrades};
ghost use Rattle.plan_writes.specs.Within.{IsCommitted, IsUndone, LeavesMade, RunsWithin};

use crate::resource_rows::{VERSION, put_meta};
use crate::runs::run_text;
use plan_basics::Moment;
use sqlite::{Alter, Connection, Error, Transaction};
use store_schema::{CREATE_AMOUNT, CREATE_QUANTITY};

// The table `quantity` is made, in which there is no row.
fn add_quantity<S: Alter>(tx: &mut Transaction<'_, S>) -> Result<(), Error>
    ensures same_reference { tx.new.conn.ghost_name ≡ tx.old.conn.ghost_name }
    ensures made { RunsWithin (Adds first_schema quantity) (state S.Store tx.old.conn.now) (state S.Store tx.new.conn.now) result }
    ensures names { FindsFree first_schema (state S.Store tx.old.conn.now) (state S.Store tx.new.conn.now) result }
{
    run_text(tx, CREATE_QUANTITY, &[])
}

// The table `amount` is made, in which there is no row.
fn add_amount<S: Alter>(tx: &mut Transaction<'_, S>) -> Result<(), Error>
    ensures same_reference { tx.new.conn.ghost_name ≡ tx.old.conn.ghost_name }
    ensures made { RunsWithin (Adds schema_10 amount) (state S.Store tx.old.conn.now) (state S.Store tx.new.conn.now) result }
    ensures names { FindsFree schema_10 (state S.Store tx.old.conn.now) (state S.Store tx.new.conn.now) result }
{
    run_text(tx, CREATE_AMOUNT, &[])
}

// Both tables are made, and the version is that of these tables.
fn upgrade_all<S: Alter>(
    tx: &mut Transaction<'_, S>,
    loaded: bool,
    clock: Moment,
) -> Result<(), Error>
    ensures same_reference { tx.new.conn.ghost_name ≡ tx.old.conn.ghost_name }
    ensures made { RunsWithin (Upgrades loaded clock) (state S.Store tx.old.conn.now) (state S.Store tx.new.conn.now) result }
    ensures names { FindsFree first_schema (state S.Store tx.old.conn.now) (state S.Store tx.new.conn.now) result }
{
    add_quantity(tx)?;
    add_amount(tx)?;
    put_meta(tx, VERSION, loaded, clock)
}

/// Makes tables of the first version those of the second, in one transaction: wholly or not at all. The plan that they hold is
/// loaded or isn't, and its clock is this; both are written again, with the version.
pub fn upgrade_tables<S: Alter>(
    conn: &mut Connection<S>,
    loaded: bool,
    clock: Moment,
) -> Result<(), Error>
    requires { conn.old.in_transaction ≡ false }
    ensures idle { conn.new.in_transaction ≡ false }
    ensures ok { HasCleanDisk (state S.Store conn.new) → OnOk result (IsCommitted (Upgrades loaded clock) (state S.Store conn.old) (state S.Store conn.new)) }
    ensures err { HasCleanDisk (state S.Store conn.new) → IsTrue (state S.Store conn.new).is_open → OnErr result (IsUndone (state S.Store conn.old) (state S.Store conn.new)) }
    ensures names { HasCleanDisk (state S.Store conn.new) → IsTrue (state S.Store conn.new).is_open → IfErr result (λ e. IsOfNames e → (state S.Store conn.old).committed.schema ≢ first_schema) }
    ensures crash { Survives (state S.Store conn.old) (state S.Store conn.new) (LeavesMade (Upgrades loaded clock) (state S.Store conn.old)) }
{
    prove!(conn.is_autocommit());
    let mut tx = conn.transaction();
    upgrade_all(&mut tx, loaded, clock)?;
    tx.commit()
}
