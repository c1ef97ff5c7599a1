// What is answered where a call of the store fails.
ghost use Rattle.std.specs.Prelude.{◌≡◌, ◌⊎◌, false, IsTrue};
ghost use Rattle.sqlite.specs.Held.{state};
ghost use Rattle.sqlite.specs.State.{HasCleanDisk};
ghost use Rattle.plan_basics.specs.declared.Refusal.{Refusal as Told};
ghost use Rattle.store_reads.specs.Reads.{OnlyReads};
ghost use Rattle.desk_tables.specs.Faults.{opening_refusal, request_refusal, IsOpeningRefusal};

use plan_basics::Refusal;
use sqlite::{Alter, Connection, Error, ErrorCode};

/// What a request is answered whose transaction failed: that memory lacks, or that the store failed.
pub fn request_refusal(error: &Error) -> Refusal
    ensures value { result ≡ request_refusal error.now }
    ensures either { (result ≡ Told.Memory) ⊎ (result ≡ Told.Store) }
{
    match error {
        Error::SqliteFailure(ErrorCode::OutOfMemory) => Refusal::Memory,
        _ => Refusal::Store,
    }
}

/// What is answered where a desk can't be made or opened: that a name is taken, or one that is asked for lacks, tells that
/// the tables are no plan's.
pub fn opening_refusal(error: &Error) -> Refusal
    ensures { result ≡ opening_refusal error.now }
{
    match error {
        Error::SqlInputError(_) | Error::SqliteFailure(ErrorCode::NameTaken) => Refusal::Damaged,
        _ => request_refusal(error),
    }
}

/// What is told where no desk is made or opened: `Damaged` only where the store is open still, as its connection shows by
/// taking a statement in, of which nothing is run.
// A name that is taken is met in a transaction, and a fault in the rollback of that may have shut the store.
pub fn refusal_told<S: Alter>(conn: &mut Connection<S>, refusal: Refusal) -> Refusal
    ensures idle { conn.old.in_transaction ≡ false → conn.new.in_transaction ≡ false }
    ensures reads { OnlyReads (state S.Store conn.old) (state S.Store conn.new) }
    ensures same { result ≡ Told.Damaged → refusal ≡ Told.Damaged }
    ensures is_open { result ≡ Told.Damaged → HasCleanDisk (state S.Store conn.new) → IsTrue (state S.Store conn.new).is_open }
    ensures refused { IsOpeningRefusal refusal → IsOpeningRefusal result }
{
    match refusal {
        Refusal::Damaged => match conn.prepare("ROLLBACK") {
            Ok(_) => Refusal::Damaged,
            Err(error) => request_refusal(&error),
        },
        other => other,
    }
}
