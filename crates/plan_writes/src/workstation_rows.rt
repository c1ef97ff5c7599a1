// The tables `workstation` and `interval`.
ghost use Rattle.std.specs.Prelude.{◌≡◌};
ghost use Rattle.sqlite.specs.Held.{state};
ghost use Rattle.store_schema.specs.StoredPlans.{with_workstation, with_interval};
ghost use Rattle.store_schema.specs.Columns.{workstation_columns, interval_columns};
ghost use Rattle.store_schema.specs.WrittenTables.{without_row};
ghost use Rattle.store_schema.specs.plan_drafts.specs.declared.RowKey.{RowKey};
ghost use Rattle.plan_writes.specs.Within.{Rewrites, RunsWithin};

use crate::columns::{minute, number};
use crate::runs::run_text;
use plan_basics::{Attr, Interval, Moment, WsName};
use sqlite::{Alter, Error, Transaction};
use store_schema::{DROP_INTERVAL, PUT_INTERVAL, PUT_WORKSTATION, letters};

/// Puts a workstation in, in place of the one with its name.
pub fn put_workstation<S: Alter>(
    tx: &mut Transaction<'_, S>,
    name: &WsName,
    attr: Attr,
) -> Result<(), Error>
    ensures same_reference { tx.new.conn.ghost_name ≡ tx.old.conn.ghost_name }
    ensures written { RunsWithin (Rewrites (with_workstation (workstation_columns name.now attr))) (state S.Store tx.old.conn.now) (state S.Store tx.new.conn.now) result }
{
    let letter = [attr.letter()];
    run_text(
        tx,
        PUT_WORKSTATION,
        &[letters(name.as_bytes()), letters(&letter)],
    )
}

/// Puts an interval of a workstation in, in place of the one with its first minute.
pub fn put_interval<S: Alter>(
    tx: &mut Transaction<'_, S>,
    ws: &WsName,
    interval: &Interval,
) -> Result<(), Error>
    ensures same_reference { tx.new.conn.ghost_name ≡ tx.old.conn.ghost_name }
    ensures written { RunsWithin (Rewrites (with_interval (interval_columns ws.now interval.now))) (state S.Store tx.old.conn.now) (state S.Store tx.new.conn.now) result }
{
    run_text(
        tx,
        PUT_INTERVAL,
        &[
            letters(ws.as_bytes()),
            minute(interval.from()),
            minute(interval.end()),
            number(u32::from(interval.servers())),
            number(u32::from(interval.r1())),
            number(u32::from(interval.r2())),
        ],
    )
}

/// Takes the interval out that a workstation has from this minute.
pub fn drop_interval<S: Alter>(
    tx: &mut Transaction<'_, S>,
    ws: &WsName,
    from: Moment,
) -> Result<(), Error>
    ensures same_reference { tx.new.conn.ghost_name ≡ tx.old.conn.ghost_name }
    ensures written { RunsWithin (Rewrites (without_row (RowKey.Interval ws.now from))) (state S.Store tx.old.conn.now) (state S.Store tx.new.conn.now) result }
{
    run_text(tx, DROP_INTERVAL, &[letters(ws.as_bytes()), minute(from)])
}
