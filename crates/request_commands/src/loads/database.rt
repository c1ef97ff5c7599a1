// The desk of a database, and what it answers to a load.
ghost use Rattle.std.specs.Prelude.{◌≡◌, ◌↔◌, true, is_some, IsTrue, IfOk, IfErr};
ghost use Rattle.std.specs.List.{list_any};
ghost use Rattle.sqlite.specs.Held.{state};
ghost use Rattle.sqlite.specs.State.{HasCleanDisk};
ghost use Rattle.plan_basics.specs.declared.Refusal.{Refusal};
ghost use Rattle.plan_records.specs.Answer.{answer_of, refused};
ghost use Rattle.plan_records.specs.Run.{empty_state};
ghost use Rattle.request_commands.specs.Databases.{HasNoTable, HasSchema, IsAnswerToLoad, IsDamaged, IsStateAt};
ghost use Rattle.store_schema.specs.Schema.{desk_schema, first_schema};
ghost use Rattle.command_desks.specs.desk_tables.specs.Desk.{state_of, HoldsState};
ghost use Rattle.command_desks.specs.desk_tables.specs.Faults.{IsOpeningRefusal};
ghost use Rattle.command_desks.specs.desk_tables.specs.Shut.{IsOpenAfter};
ghost use Rattle.store_schema.specs.Tables.{no_schema};

use command_desks::Desk;
use plan_basics::Refusal;
use plan_records::{PlanDraft, Reply, Request, What};
use sqlite::{Alter, Connection};
use sqlite_schema::schema::View;
use std::alloc::Global;

// Whether one of these is no view, but a table that SQL doesn't reach, or what belongs to it.
fn has_foreign(views: &[View]) -> bool
    ensures { result ≡ list_any (λ view. is_some view.foreign) views.now }
{
    views.iter().any(|view| view.foreign.is_some())
}

// Whether a database has no table. One that SQL doesn't reach is listed among the views.
fn has_no_table<S: Alter>(conn: &Connection<S>) -> bool
    ensures { IsTrue result ↔ HasNoTable (state S.Store conn.now).now.schema }
{
    let schema = conn.schema();
    schema.tables.is_empty() && !has_foreign(schema.views.as_slice())
}

// The desk of a database: made where it has no table, else opened.
fn desk_of<S: Alter + Drop>(
    alloc: Global,
    conn: Connection<S>,
) -> Result<Desk<S>, (Refusal, Connection<S>)>
    ensures state { IfOk result (λ desk. IsStateAt (state S.Store conn) (state S.Store desk.conn) (state_of desk)) }
    ensures usable { IfOk result (λ desk. desk.is_usable ≡ true) }
    ensures is_open { IfOk result (λ desk. HasCleanDisk (state S.Store desk.conn) → IsTrue (state S.Store desk.conn).is_open) }
    ensures made { IfOk result (λ desk. HasCleanDisk (state S.Store desk.conn) → HasSchema (state S.Store conn) no_schema → HoldsState empty_state (state S.Store desk.conn).committed) }
    ensures opened { IfOk result (λ desk. HasCleanDisk (state S.Store desk.conn) → HasSchema (state S.Store conn) desk_schema → (state S.Store desk.conn).committed ≡ (state S.Store conn).committed) }
    ensures opened_first { IfOk result (λ desk. HasCleanDisk (state S.Store desk.conn) → HasSchema (state S.Store conn) first_schema → HoldsState (state_of desk) (state S.Store desk.conn).committed) }
    ensures refused { IfErr result (λ e. IsOpeningRefusal e.0) }
    ensures still_open { IfErr result (λ e. e.0 ≡ Refusal.Damaged → HasCleanDisk (state S.Store e.1) → IsTrue (state S.Store e.1).is_open) }
    ensures damaged { IfErr result (λ e. e.0 ≡ Refusal.Damaged → HasCleanDisk (state S.Store e.1) → IsDamaged (state S.Store conn)) }
    ensures unchanged { IfErr result (λ e. HasCleanDisk (state S.Store e.1) → IsOpenAfter (refused e.0) (state S.Store e.1) → (state S.Store e.1).committed ≡ (state S.Store conn).committed) }
{
    if has_no_table(&conn) {
        Desk::create(alloc, conn)
    } else {
        Desk::open(alloc, conn)
    }
}

/// Loads the plan of a text, if it denotes one, into the desk of a database at a moment: the desk is made where the
/// database has no table, else opened, where tables of the first version become those of the second.
///
/// The answer is the desk's, or the refusal of the one that could not be made or opened: `Damaged` where the database
/// has tables that aren't a desk's with a plan's rows, `Store` where a transaction is open on the connection. The
/// connection is given back.
pub fn load_into<S: Alter + Drop>(
    alloc: Global,
    conn: Connection<S>,
    at: i64,
    draft: Option<PlanDraft>,
) -> (Reply, Connection<S>)
    ensures { IsAnswerToLoad (state S.Store conn) (state S.Store result.1) at draft (answer_of result.0) }
{
    let mut desk = match desk_of(alloc, conn) {
        Ok(desk) => desk,
        Err((refusal, conn)) => return (Reply::Refused(refusal), conn),
    };
    let reply = desk.call(&Request {
        at,
        what: What::Load(draft),
    });
    (reply, desk.close())
}
