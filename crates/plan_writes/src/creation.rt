// The tables of a desk at which nothing is loaded.
ghost use Rattle.std.specs.Prelude.{◌≡◌, ◌≢◌, false, IfErr, IsTrue, OnErr, OnOk};
ghost use Rattle.sqlite.specs.Held.{state};
ghost use Rattle.sqlite.specs.State.{HasCleanDisk, Survives};
ghost use Rattle.store_schema.specs.Tables.{no_schema};
ghost use Rattle.store_schema.specs.Schema.{desk_schema};
ghost use Rattle.plan_writes.specs.Faults.{FindsNamesFree, IsOfNames};
ghost use Rattle.plan_writes.specs.Within.{Begins, Grows, IsCommitted, IsUndone, LeavesMade, RunsWithin};

use crate::resource_rows::{VERSION, put_meta};
use crate::runs::run_text;
use plan_basics::Moment;
use sqlite::{Alter, Connection, Error, Transaction};
use store_schema::{
    CREATE_AMOUNT, CREATE_DEPENDENCY, CREATE_INTERVAL, CREATE_META, CREATE_NEED, CREATE_OCCURRENCE,
    CREATE_OPERATION, CREATE_QUANTITY, CREATE_RECEIPT, CREATE_RESOURCE, CREATE_WORKSTATION,
};

// The texts that make the tables, in the order in which the tables are made.
const CREATIONS: [&str; 11] = [
    CREATE_META,
    CREATE_WORKSTATION,
    CREATE_INTERVAL,
    CREATE_RESOURCE,
    CREATE_OCCURRENCE,
    CREATE_OPERATION,
    CREATE_DEPENDENCY,
    CREATE_NEED,
    CREATE_RECEIPT,
    CREATE_QUANTITY,
    CREATE_AMOUNT,
];

// All tables are made in a database that has none.
fn create_empty<S: Alter>(tx: &mut Transaction<'_, S>) -> Result<(), Error>
    ensures same_reference { tx.new.conn.ghost_name ≡ tx.old.conn.ghost_name }
    ensures made { RunsWithin (Grows no_schema desk_schema) (state S.Store tx.old.conn.now) (state S.Store tx.new.conn.now) result }
    ensures names { FindsNamesFree no_schema (state S.Store tx.old.conn.now) (state S.Store tx.new.conn.now) result }
{
    for text in &CREATIONS {
        run_text(tx, text, &[])?;
    }
    Ok(())
}

// The first minute that a plan can name, at which a clock begins.
fn first_minute() -> Moment
    ensures { result ≡ 0 }
{
    Moment::new(0).unwrap()
}

// All tables are made, with the one row that there is before a plan is loaded.
fn create_all<S: Alter>(tx: &mut Transaction<'_, S>) -> Result<(), Error>
    ensures same_reference { tx.new.conn.ghost_name ≡ tx.old.conn.ghost_name }
    ensures made { RunsWithin Begins (state S.Store tx.old.conn.now) (state S.Store tx.new.conn.now) result }
    ensures names { FindsNamesFree no_schema (state S.Store tx.old.conn.now) (state S.Store tx.new.conn.now) result }
{
    create_empty(tx)?;
    put_meta(tx, VERSION, false, first_minute())
}

/// Makes the tables of a desk at which nothing is loaded, in one transaction: wholly or not at all.
pub fn create_tables<S: Alter>(conn: &mut Connection<S>) -> Result<(), Error>
    requires { conn.old.in_transaction ≡ false }
    ensures idle { conn.new.in_transaction ≡ false }
    ensures ok { HasCleanDisk (state S.Store conn.new) → OnOk result (IsCommitted Begins (state S.Store conn.old) (state S.Store conn.new)) }
    ensures err { HasCleanDisk (state S.Store conn.new) → IsTrue (state S.Store conn.new).is_open → OnErr result (IsUndone (state S.Store conn.old) (state S.Store conn.new)) }
    ensures names { HasCleanDisk (state S.Store conn.new) → IsTrue (state S.Store conn.new).is_open → IfErr result (λ e. IsOfNames e → (state S.Store conn.old).committed.schema ≢ no_schema) }
    ensures crash { Survives (state S.Store conn.old) (state S.Store conn.new) (LeavesMade Begins (state S.Store conn.old)) }
{
    prove!(conn.is_autocommit());
    let mut tx = conn.transaction();
    create_all(&mut tx)?;
    tx.commit()
}
