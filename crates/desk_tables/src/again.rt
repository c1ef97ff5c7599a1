// Desks that are opened over what a stop left.
ghost use Rattle.std.specs.Prelude.{◌≡◌, false, IfErr, IfOk, IsTrue, Option};
ghost use Rattle.sqlite.specs.Held.{state};
ghost use Rattle.sqlite.specs.State.{HasCleanDisk};
ghost use Rattle.plan_basics.specs.declared.Refusal.{Refusal};
ghost use Rattle.store_schema.specs.declared.texts.Version.{Version};
ghost use Rattle.store_schema.specs.declared.texts.Version.TheVariants.{Second};
ghost use Rattle.plan_records.specs.Run.{State, Usable};
ghost use Rattle.plan_records.specs.Schedules.{Event, IsDeskState};
ghost use Rattle.desk_tables.specs.Again.{IsFoundAfter, LeavesNoDesk};
ghost use Rattle.desk_tables.specs.Desk.{state_of};
ghost use Rattle.desk_tables.specs.Stops.{AreLeftBy, AreLeftIn, StopsLeave};

use super::desk::Desk;
use plan_basics::Refusal;
use sqlite::{Alter, Connection, Error, ErrorCode};
use sqlite_trees::store::Reopen;
use std::alloc::Global;

/// The connection to what a stop at this moment leaves: the store is given up as it stands, and opened again.
pub fn connect_again<S: Alter + Reopen + Drop>(
    alloc: Global,
    conn: Connection<S>,
) -> Result<Connection<S>, Error>
    ensures left { IfOk result (λ again. HasCleanDisk (state S.Store again) → (state S.Store conn).may_leave (state S.Store again).committed.trees) }
    ensures is_open { IfOk result (λ again. HasCleanDisk (state S.Store again) → IsTrue (state S.Store again).is_open) }
    ensures idle { IfOk result (λ again. again.in_transaction ≡ false) }
    ensures clean { IfOk result (λ again. HasCleanDisk (state S.Store again) → HasCleanDisk (state S.Store conn)) }
{
    let mut store = conn.into_store();
    if store.crash_and_reopen().is_err() {
        return Err(Error::SqliteFailure(ErrorCode::SystemIoFailure));
    }
    match Connection::over(alloc, store) {
        Ok(again) => Ok(again),
        Err((error, _)) => Err(error),
    }
}

/// Opens a desk over what a stop at this moment leaves. Where that is what an event leaves of tables that hold a state, as
/// each call of a desk says of the stops in it and after it, the event and this opening are a schedule of the law
/// `every_schedule`: it finds just what was left (`found`, `found_first`), and doesn't find the tables damaged
/// (`undamaged`).
///
/// The outer error is that of the store, which can't be opened again; the inner one that of `Desk::open`. A process that
/// begins anew opens its files itself, and `Desk::open` says of its connection what this says here.
pub fn open_again<S: Alter + Reopen + Drop>(
    alloc: Global,
    conn: Connection<S>,
) -> Result<Result<Desk<S>, (Refusal, Connection<S>)>, Error>
    ensures found { IfOk result (λ opened. IfOk opened (λ desk. HasCleanDisk (state S.Store desk.conn) → (s : State) → (d : Option Usable) → (event : Event) → IsDeskState s → LeavesNoDesk event
        → StopsLeave (state S.Store conn) (AreLeftBy s d event) → IsFoundAfter Second s d event (state_of desk) (state S.Store desk.conn))) }
    ensures found_first { IfOk result (λ opened. IfOk opened (λ desk. HasCleanDisk (state S.Store desk.conn) → (version : Version) → (s : State) → (d : Option Usable) → (event : Event) → IsDeskState s → LeavesNoDesk event
        → StopsLeave (state S.Store conn) (AreLeftIn version s d event) → IsFoundAfter version s d event (state_of desk) (state S.Store desk.conn))) }
    ensures undamaged { IfOk result (λ opened. IfErr opened (λ e. e.0 ≡ Refusal.Damaged → HasCleanDisk (state S.Store e.1) → (version : Version) → (s : State) → (d : Option Usable) → (event : Event) → IsDeskState s → LeavesNoDesk event
        → ¬ StopsLeave (state S.Store conn) (AreLeftIn version s d event))) }
{
    let again = connect_again(alloc, conn)?;
    Ok(Desk::open(alloc, again))
}
