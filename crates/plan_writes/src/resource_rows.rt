// The tables `meta`, `resource` and `need`.
ghost use Rattle.std.specs.Prelude.{◌≡◌};
ghost use Rattle.sqlite.specs.Held.{state};
ghost use Rattle.store_schema.specs.Schema.{desk_schema};
ghost use Rattle.store_schema.specs.StoredPlans.{with_meta, with_resource, with_need};
ghost use Rattle.store_schema.specs.Columns.{meta_columns, resource_columns, need_columns};
ghost use Rattle.store_schema.specs.WrittenTables.{without_row};
ghost use Rattle.store_schema.specs.plan_drafts.specs.declared.RowKey.{RowKey};
ghost use Rattle.plan_writes.specs.Faults.{FindsFree};
ghost use Rattle.plan_writes.specs.Within.{Rewrites, RunsWithin};

use crate::columns::{flag, keeping, minute, mode_text, number};
use crate::runs::run_text;
use plan_basics::{Moment, OpKey, ResName};
use special_resources::Mode;
use sqlite::{Alter, Error, Transaction};
use store_schema::{DROP_NEED, PUT_META, PUT_NEED, PUT_RESOURCE, letters};

/// The version of the tables that are made here.
pub const VERSION: u32 = 2;

/// Puts the one row of `meta` in: the version of the tables, whether a plan is loaded, and the clock.
pub fn put_meta<S: Alter>(
    tx: &mut Transaction<'_, S>,
    version: u32,
    loaded: bool,
    clock: Moment,
) -> Result<(), Error>
    ensures same_reference { tx.new.conn.ghost_name ≡ tx.old.conn.ghost_name }
    ensures written { RunsWithin (Rewrites (with_meta (meta_columns version loaded clock))) (state S.Store tx.old.conn.now) (state S.Store tx.new.conn.now) result }
    ensures names { FindsFree desk_schema (state S.Store tx.old.conn.now) (state S.Store tx.new.conn.now) result }
{
    run_text(
        tx,
        PUT_META,
        &[number(1), number(version), flag(loaded), minute(clock)],
    )
}

/// Puts a special resource in, in place of the one with its name.
pub fn put_resource<S: Alter>(
    tx: &mut Transaction<'_, S>,
    name: &ResName,
    available: bool,
) -> Result<(), Error>
    ensures same_reference { tx.new.conn.ghost_name ≡ tx.old.conn.ghost_name }
    ensures written { RunsWithin (Rewrites (with_resource (resource_columns name.now available))) (state S.Store tx.old.conn.now) (state S.Store tx.new.conn.now) result }
{
    run_text(
        tx,
        PUT_RESOURCE,
        &[letters(name.as_bytes()), flag(available)],
    )
}

/// Puts an operation's need in, in place of its need of the same special resource.
pub fn put_need<S: Alter>(
    tx: &mut Transaction<'_, S>,
    op: &OpKey,
    resource: &ResName,
    mode: Mode,
    keep: bool,
) -> Result<(), Error>
    ensures same_reference { tx.new.conn.ghost_name ≡ tx.old.conn.ghost_name }
    ensures written { RunsWithin (Rewrites (with_need (need_columns op.now resource.now mode keep))) (state S.Store tx.old.conn.now) (state S.Store tx.new.conn.now) result }
{
    run_text(
        tx,
        PUT_NEED,
        &[
            letters(op.occurrence.app.as_bytes()),
            minute(op.occurrence.arrival),
            number(u32::from(op.number)),
            letters(resource.as_bytes()),
            mode_text(mode),
            keeping(keep),
        ],
    )
}

/// Takes an operation's need of a special resource out.
pub fn drop_need<S: Alter>(
    tx: &mut Transaction<'_, S>,
    op: &OpKey,
    resource: &ResName,
) -> Result<(), Error>
    ensures same_reference { tx.new.conn.ghost_name ≡ tx.old.conn.ghost_name }
    ensures written { RunsWithin (Rewrites (without_row (RowKey.Need op.now resource.now))) (state S.Store tx.old.conn.now) (state S.Store tx.new.conn.now) result }
{
    run_text(
        tx,
        DROP_NEED,
        &[
            letters(op.occurrence.app.as_bytes()),
            minute(op.occurrence.arrival),
            number(u32::from(op.number)),
            letters(resource.as_bytes()),
        ],
    )
}
