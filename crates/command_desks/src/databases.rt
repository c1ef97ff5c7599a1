// The databases of desks: opened by their paths, and closed at the end.
ghost use Rattle.std.specs.Prelude.{◌≡◌, false, IfOk, IfErr};
ghost use Rattle.command_answers.specs.Opened.{IsWhyNoDesk};
ghost use Rattle.command_answers.specs.Statuses.{IsOfSurroundings};
ghost use Rattle.desk_tables.specs.Faults.{IsOpeningRefusal};

use command_answers::{Fault, NoDesk};
use desk_tables::Desk;
use plan_basics::Refusal;
use plan_records::Reply;
use sqlite::{Alter, Connection, File, FileStore};
use std::alloc::Global;
use std::fs;
use std::rt::HostRuntime;

/// The store of a database that is a file, with its log beside it.
pub type DatabaseFile = FileStore<File>;

/// A database over a store of the kind `S`, opened by its path and closed at the end. What is done at a desk is written
/// for any store.
pub trait Database<S: Alter>: Sized {
    ghost use Rattle.std.specs.Prelude.{◌≡◌, false, IfOk, IfErr};
    ghost use Rattle.command_answers.specs.Statuses.{IsOfSurroundings};

    /// Opens the database of a path, which is made where there is none. No transaction is open.
    fn open_at(rt: &HostRuntime, path: &str) -> Result<Connection<S>, Fault>
        ensures idle { IfOk result (λ conn. conn.in_transaction ≡ false) }
        ensures fault { IfErr result IsOfSurroundings };

    /// Closes it.
    fn shut(self) -> Result<(), Fault>
        ensures { IfErr result IsOfSurroundings };
}

impl Database<DatabaseFile> for Connection<DatabaseFile> {
    #[tactic(auto, using(command_answers::proofs::Statuses::of_the_store))]
    fn open_at(rt: &HostRuntime, path: &str) -> Result<Connection<DatabaseFile>, Fault>
        ensures idle { IfOk result (λ conn. conn.in_transaction ≡ false) }
        ensures fault { IfErr result IsOfSurroundings }
    {
        match Connection::open(rt, path) {
            Ok(conn) => Ok(conn),
            Err(error) => Err(Fault::from(error)),
        }
    }

    // What the log has is copied into the file.
    #[tactic(auto, using(command_answers::proofs::Statuses::of_the_store))]
    fn shut(self) -> Result<(), Fault>
        ensures { IfErr result IsOfSurroundings }
    {
        match self.close() {
            Ok(()) => Ok(()),
            Err(error) => Err(Fault::from(error)),
        }
    }
}

/// Closes a database. Where the answer tells of a fault of the store, it is let go as it is.
pub fn close<S: Alter + Drop>(conn: Connection<S>, reply: &Reply) -> Result<(), Fault>
where
    Connection<S>: Database<S>,
    ensures { IfErr result IsOfSurroundings }
{
    match reply {
        Reply::Refused(Refusal::Store) => Ok(()),
        _ => conn.shut(),
    }
}

/// Closes the database of a desk. Where its store has failed, it is let go as it is.
pub fn close_desk<S: Alter + Drop>(desk: Desk<S>) -> Result<(), Fault>
where
    Connection<S>: Database<S>,
    ensures { IfErr result IsOfSurroundings }
{
    let is_usable = desk.is_usable();
    let conn = desk.close();
    if is_usable { conn.shut() } else { Ok(()) }
}

// The connection to a database, which has to be there.
fn stored_connection<S: Alter + Drop>(rt: &HostRuntime, path: &str) -> Result<Connection<S>, Fault>
where
    Connection<S>: Database<S>,
    ensures { IfErr result IsOfSurroundings }
{
    fs::metadata(rt, path)?;
    Connection::<S>::open_at(rt, path)
}

// The desk over a connection, which is closed where it can't be opened.
fn opened_desk<S: Alter + Drop>(alloc: Global, conn: Connection<S>) -> Result<Desk<S>, NoDesk>
where
    Connection<S>: Database<S>,
    ensures { IfErr result (IsWhyNoDesk IsOpeningRefusal) }
{
    match Desk::open(alloc, conn) {
        Ok(desk) => Ok(desk),
        Err((refusal, conn)) => match close(conn, &Reply::Refused(refusal)) {
            Ok(()) => Err(NoDesk::Refused(refusal)),
            Err(fault) => Err(NoDesk::Faulty(fault)),
        },
    }
}

/// The desk of a database, which has to be there; or why there is none.
pub fn stored_desk<S: Alter + Drop>(rt: &HostRuntime, path: &str) -> Result<Desk<S>, NoDesk>
where
    Connection<S>: Database<S>,
    ensures { IfErr result (IsWhyNoDesk IsOpeningRefusal) }
{
    match stored_connection(rt, path) {
        Ok(conn) => opened_desk(rt.alloc(), conn),
        Err(fault) => Err(NoDesk::Faulty(fault)),
    }
}
