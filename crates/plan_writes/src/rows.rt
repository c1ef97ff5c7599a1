// Rows of any table, and lists of them.
ghost use Rattle.std.specs.Prelude.{◌≡◌};
ghost use Rattle.sqlite.specs.Held.{state};
ghost use Rattle.store_schema.specs.WrittenTables.{with_row, without_row, with_rows, without_rows, written};
ghost use Rattle.plan_writes.specs.Within.{Rewrites, RunsWithin};

use crate::operation_rows::{
    drop_dependency, drop_occurrence, drop_operation, put_dependency, put_occurrence, put_operation,
};
use crate::quantity_rows::{drop_amount, put_amount, put_quantity};
use crate::resource_rows::{drop_need, put_meta, put_need, put_resource};
use crate::workstation_rows::{drop_interval, put_interval, put_workstation};
use sqlite::{Alter, Error, Transaction};
use store_schema::{PlanRow, RowKey};

/// Puts a row into its table, in place of the one with its key.
pub fn write_row<S: Alter>(tx: &mut Transaction<'_, S>, row: &PlanRow) -> Result<(), Error>
    ensures same_reference { tx.new.conn.ghost_name ≡ tx.old.conn.ghost_name }
    ensures written { RunsWithin (Rewrites (with_row row.now)) (state S.Store tx.old.conn.now) (state S.Store tx.new.conn.now) result }
{
    match row {
        PlanRow::Meta {
            version,
            loaded,
            clock,
        } => put_meta(tx, *version, *loaded, *clock),
        PlanRow::Workstation { name, attr } => put_workstation(tx, name, *attr),
        PlanRow::Interval { ws, interval } => put_interval(tx, ws, interval),
        PlanRow::Resource { name, available } => put_resource(tx, name, *available),
        PlanRow::Occurrence {
            occurrence,
            priority,
            deadline,
            status,
        } => put_occurrence(tx, occurrence, *priority, *deadline, *status),
        PlanRow::Operation(row) => put_operation(tx, row),
        PlanRow::Dependency {
            predecessor,
            successor,
        } => put_dependency(tx, predecessor, successor),
        PlanRow::Need {
            op,
            resource,
            mode,
            keep,
        } => put_need(tx, op, resource, *mode, *keep),
        PlanRow::Quantity { resource, quantity } => put_quantity(tx, resource, *quantity),
        PlanRow::Amount {
            op,
            resource,
            amount,
        } => put_amount(tx, op, resource, *amount),
    }
}

/// Takes the row with this key out of its table. The clock, workstations, special resources and their quantities never go;
/// for a key of theirs nothing is done.
pub fn drop_row<S: Alter>(tx: &mut Transaction<'_, S>, key: &RowKey) -> Result<(), Error>
    ensures same_reference { tx.new.conn.ghost_name ≡ tx.old.conn.ghost_name }
    ensures written { RunsWithin (Rewrites (without_row key.now)) (state S.Store tx.old.conn.now) (state S.Store tx.new.conn.now) result }
{
    match key {
        RowKey::Interval(ws, from) => drop_interval(tx, ws, *from),
        RowKey::Occurrence(occurrence) => drop_occurrence(tx, occurrence),
        RowKey::Operation(op) => drop_operation(tx, op),
        RowKey::Dependency(predecessor, successor) => drop_dependency(tx, predecessor, successor),
        RowKey::Need(op, resource) => drop_need(tx, op, resource),
        RowKey::Amount(op, resource) => drop_amount(tx, op, resource),
        RowKey::Meta | RowKey::Workstation(_) | RowKey::Resource(_) | RowKey::Quantity(_) => Ok(()),
    }
}

/// Puts rows into their tables, one after another.
pub fn write_rows<S: Alter>(tx: &mut Transaction<'_, S>, rows: &[PlanRow]) -> Result<(), Error>
    ensures same_reference { tx.new.conn.ghost_name ≡ tx.old.conn.ghost_name }
    ensures written { RunsWithin (Rewrites (with_rows rows.now)) (state S.Store tx.old.conn.now) (state S.Store tx.new.conn.now) result }
{
    for row in rows {
        write_row(tx, row)?;
    }
    Ok(())
}

/// Takes the rows with these keys out of their tables, one after another.
pub fn drop_rows<S: Alter>(tx: &mut Transaction<'_, S>, gone: &[RowKey]) -> Result<(), Error>
    ensures same_reference { tx.new.conn.ghost_name ≡ tx.old.conn.ghost_name }
    ensures written { RunsWithin (Rewrites (without_rows gone.now)) (state S.Store tx.old.conn.now) (state S.Store tx.new.conn.now) result }
{
    for key in gone {
        drop_row(tx, key)?;
    }
    Ok(())
}

/// Puts the rows in, and takes those out whose keys are gone.
pub fn write_and_drop<S: Alter>(
    tx: &mut Transaction<'_, S>,
    rows: &[PlanRow],
    gone: &[RowKey],
) -> Result<(), Error>
    ensures same_reference { tx.new.conn.ghost_name ≡ tx.old.conn.ghost_name }
    ensures written { RunsWithin (Rewrites (written rows.now gone.now)) (state S.Store tx.old.conn.now) (state S.Store tx.new.conn.now) result }
{
    write_rows(tx, rows)?;
    drop_rows(tx, gone)
}
