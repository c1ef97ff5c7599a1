// The tables `occurrence`, `operation` and `dependency`.
ghost use Rattle.std.specs.Prelude.{◌≡◌};
ghost use Rattle.sqlite.specs.Held.{state};
ghost use Rattle.store_schema.specs.StoredPlans.{with_occurrence, with_operation, with_dependency};
ghost use Rattle.store_schema.specs.Columns.{occurrence_columns, operation_columns, dependency_columns};
ghost use Rattle.store_schema.specs.WrittenTables.{without_row};
ghost use Rattle.store_schema.specs.plan_drafts.specs.declared.RowKey.{RowKey};
ghost use Rattle.plan_writes.specs.Within.{Rewrites, RunsWithin};

use crate::columns::{flag, minute, number};
use crate::runs::run_text;
use plan_basics::{Moment, OccKey, OpKey};
use sqlite::{Alter, Error, Transaction};
use store_schema::{
    DROP_DEPENDENCY, DROP_OCCURRENCE, DROP_OPERATION, OccStatus, OperationRow, PUT_DEPENDENCY,
    PUT_OCCURRENCE, PUT_OPERATION, int, letters, text,
};

/// Puts an occurrence in, in place of the one with its key.
pub fn put_occurrence<S: Alter>(
    tx: &mut Transaction<'_, S>,
    occurrence: &OccKey,
    priority: u8,
    deadline: Moment,
    status: OccStatus,
) -> Result<(), Error>
    ensures same_reference { tx.new.conn.ghost_name ≡ tx.old.conn.ghost_name }
    ensures written { RunsWithin (Rewrites (with_occurrence (occurrence_columns occurrence.now priority deadline status))) (state S.Store tx.old.conn.now) (state S.Store tx.new.conn.now) result }
{
    let letter = [status.letter()];
    run_text(
        tx,
        PUT_OCCURRENCE,
        &[
            letters(occurrence.app.as_bytes()),
            minute(occurrence.arrival),
            number(u32::from(priority)),
            minute(deadline),
            letters(&letter),
        ],
    )
}

/// Puts an operation in, in place of the one with its key.
pub fn put_operation<S: Alter>(tx: &mut Transaction<'_, S>, row: &OperationRow) -> Result<(), Error>
    ensures same_reference { tx.new.conn.ghost_name ≡ tx.old.conn.ghost_name }
    ensures written { RunsWithin (Rewrites (with_operation (operation_columns row.now))) (state S.Store tx.old.conn.now) (state S.Store tx.new.conn.now) result }
{
    let letter = [row.status.letter()];
    run_text(
        tx,
        PUT_OPERATION,
        &[
            letters(row.op.occurrence.app.as_bytes()),
            minute(row.op.occurrence.arrival),
            number(u32::from(row.op.number)),
            letters(row.ws.as_bytes()),
            number(u32::from(row.duration)),
            number(u32::from(row.r1)),
            number(u32::from(row.r2)),
            minute(row.not_before),
            minute(row.deadline),
            text(row.mark.text()),
            letters(row.mark.code_text()),
            flag(row.held),
            flag(row.nop),
            letters(&letter),
            int(&row.latest),
            number(row.waiting),
        ],
    )
}

/// Puts a pair of operations in, of which the first precedes the second.
pub fn put_dependency<S: Alter>(
    tx: &mut Transaction<'_, S>,
    predecessor: &OpKey,
    successor: &OpKey,
) -> Result<(), Error>
    ensures same_reference { tx.new.conn.ghost_name ≡ tx.old.conn.ghost_name }
    ensures written { RunsWithin (Rewrites (with_dependency (dependency_columns predecessor.now successor.now))) (state S.Store tx.old.conn.now) (state S.Store tx.new.conn.now) result }
{
    run_text(
        tx,
        PUT_DEPENDENCY,
        &[
            letters(predecessor.occurrence.app.as_bytes()),
            minute(predecessor.occurrence.arrival),
            number(u32::from(predecessor.number)),
            letters(successor.occurrence.app.as_bytes()),
            minute(successor.occurrence.arrival),
            number(u32::from(successor.number)),
        ],
    )
}

/// Takes the occurrence out that has this key; its operations stay.
pub fn drop_occurrence<S: Alter>(
    tx: &mut Transaction<'_, S>,
    occurrence: &OccKey,
) -> Result<(), Error>
    ensures same_reference { tx.new.conn.ghost_name ≡ tx.old.conn.ghost_name }
    ensures written { RunsWithin (Rewrites (without_row (RowKey.Occurrence occurrence.now))) (state S.Store tx.old.conn.now) (state S.Store tx.new.conn.now) result }
{
    run_text(
        tx,
        DROP_OCCURRENCE,
        &[
            letters(occurrence.app.as_bytes()),
            minute(occurrence.arrival),
        ],
    )
}

/// Takes the operation out that has this key; its pairs and its needs stay.
pub fn drop_operation<S: Alter>(tx: &mut Transaction<'_, S>, op: &OpKey) -> Result<(), Error>
    ensures same_reference { tx.new.conn.ghost_name ≡ tx.old.conn.ghost_name }
    ensures written { RunsWithin (Rewrites (without_row (RowKey.Operation op.now))) (state S.Store tx.old.conn.now) (state S.Store tx.new.conn.now) result }
{
    run_text(
        tx,
        DROP_OPERATION,
        &[
            letters(op.occurrence.app.as_bytes()),
            minute(op.occurrence.arrival),
            number(u32::from(op.number)),
        ],
    )
}

/// Takes the pair of these operations out.
pub fn drop_dependency<S: Alter>(
    tx: &mut Transaction<'_, S>,
    predecessor: &OpKey,
    successor: &OpKey,
) -> Result<(), Error>
    ensures same_reference { tx.new.conn.ghost_name ≡ tx.old.conn.ghost_name }
    ensures written { RunsWithin (Rewrites (without_row (RowKey.Dependency predecessor.now successor.now))) (state S.Store tx.old.conn.now) (state S.Store tx.new.conn.now) result }
{
    run_text(
        tx,
        DROP_DEPENDENCY,
        &[
            letters(predecessor.occurrence.app.as_bytes()),
            minute(predecessor.occurrence.arrival),
            number(u32::from(predecessor.number)),
            letters(successor.occurrence.app.as_bytes()),
            minute(successor.occurrence.arrival),
            number(u32::from(successor.number)),
        ],
    )
}
