// The tables `quantity` and `amount`.
ghost use Rattle.std.specs.Prelude.{◌≡◌};
ghost use Rattle.sqlite.specs.Held.{state};
ghost use Rattle.store_schema.specs.StoredPlans.{with_quantity, with_amount};
ghost use Rattle.store_schema.specs.Columns.{quantity_columns, amount_columns};
ghost use Rattle.store_schema.specs.WrittenTables.{without_row};
ghost use Rattle.store_schema.specs.plan_drafts.specs.declared.RowKey.{RowKey};
ghost use Rattle.plan_writes.specs.Within.{Rewrites, RunsWithin};

use crate::columns::{minute, number};
use crate::runs::run_text;
use plan_basics::{OpKey, ResName};
use sqlite::{Alter, Error, Transaction};
use store_schema::{DROP_AMOUNT, PUT_AMOUNT, PUT_QUANTITY, letters};

/// Puts the quantity of a special resource in, in place of the one that it has.
pub fn put_quantity<S: Alter>(
    tx: &mut Transaction<'_, S>,
    resource: &ResName,
    quantity: u32,
) -> Result<(), Error>
    ensures same_reference { tx.new.conn.ghost_name ≡ tx.old.conn.ghost_name }
    ensures written { RunsWithin (Rewrites (with_quantity (quantity_columns resource.now quantity))) (state S.Store tx.old.conn.now) (state S.Store tx.new.conn.now) result }
{
    run_text(
        tx,
        PUT_QUANTITY,
        &[letters(resource.as_bytes()), number(quantity)],
    )
}

/// Puts the amount in that an operation needs of a special resource, in place of the one that it has.
pub fn put_amount<S: Alter>(
    tx: &mut Transaction<'_, S>,
    op: &OpKey,
    resource: &ResName,
    amount: u32,
) -> Result<(), Error>
    ensures same_reference { tx.new.conn.ghost_name ≡ tx.old.conn.ghost_name }
    ensures written { RunsWithin (Rewrites (with_amount (amount_columns op.now resource.now amount))) (state S.Store tx.old.conn.now) (state S.Store tx.new.conn.now) result }
{
    run_text(
        tx,
        PUT_AMOUNT,
        &[
            letters(op.occurrence.app.as_bytes()),
            minute(op.occurrence.arrival),
            number(u32::from(op.number)),
            letters(resource.as_bytes()),
            number(amount),
        ],
    )
}

/// Takes the amount out that an operation needs of a special resource.
pub fn drop_amount<S: Alter>(
    tx: &mut Transaction<'_, S>,
    op: &OpKey,
    resource: &ResName,
) -> Result<(), Error>
    ensures same_reference { tx.new.conn.ghost_name ≡ tx.old.conn.ghost_name }
    ensures written { RunsWithin (Rewrites (without_row (RowKey.Amount op.now resource.now))) (state S.Store tx.old.conn.now) (state S.Store tx.new.conn.now) result }
{
    run_text(
        tx,
        DROP_AMOUNT,
        &[
            letters(op.occurrence.app.as_bytes()),
            minute(op.occurrence.arrival),
            number(u32::from(op.number)),
            letters(resource.as_bytes()),
        ],
    )
}
