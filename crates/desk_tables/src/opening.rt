// The plan and the receipts whose rows the tables hold, and tables of the first version that become those of the second.
ghost use Rattle.std.specs.Prelude.{◌≡◌, ◌≢◌, false, IfErr, IfOk, IsTrue, MatchOption, OnErr, OnOk};
ghost use Rattle.sqlite.specs.Held.{state};
ghost use Rattle.sqlite.specs.State.{HasCleanDisk, IsLive, Survives};
ghost use Rattle.plan_basics.specs.declared.Refusal.{Refusal};
ghost use Rattle.store_reads.specs.Reads.{OnlyReads};
ghost use Rattle.store_reads.specs.Tables.{StoresEach};
ghost use Rattle.store_reads.specs.Versions.{HasTableQuantity};
ghost use Rattle.store_schema.specs.Schema.{first_schema, schema_of};
ghost use Rattle.store_schema.specs.declared.texts.Version.{Version};
ghost use Rattle.store_schema.specs.declared.texts.Version.TheVariants.{First, Second};
ghost use Rattle.plan_records.specs.Answer.{refused};
ghost use Rattle.plan_records.specs.Receipts.{AreReceipts};
ghost use Rattle.plan_records.specs.Schedules.{IsDeskState};
ghost use Rattle.plan_records.specs.Step.{Receipts as LastReceipts};
ghost use Rattle.desk_tables.specs.Desk.{HasFirstTables, HasTables, HoldsNoStateIn, HoldsState, HoldsStateIn, IsClean};
ghost use Rattle.desk_tables.specs.Faults.{IsOpeningRefusal};
ghost use Rattle.desk_tables.specs.Opening.{AreOfNoState, IsOpenedFirst, IsStateOf, MayBringUp};
ghost use Rattle.desk_tables.specs.Shut.{IsOpenAfter};
ghost use Rattle.plan_writes.specs.Upgrading.{Upgrades};
ghost use Rattle.plan_writes.specs.Within.{IsCommitted, IsUndone, LeavesMade};
ghost use Rattle.tracker_receipts.specs.Stored.{AreRowsOf};

use super::faults::{opening_refusal, refusal_told};
use plan_basics::Refusal;
use plan_core::Plan;
use plan_writes::upgrade_tables;
use sqlite::{Alter, Connection};
use std::alloc::{AllocError, Global};
use store_reads::{StoredTables, as_second, read_rows};
use store_schema::Version;
use tracker_receipts::{ReceiptRow, Receipts, receipts_of};

// The rows that the tables hold. Refused as `Damaged` where one of theirs is no row of a plan or of receipts.
fn kept_tables<S: Alter>(alloc: Global, conn: &mut Connection<S>) -> Result<StoredTables, Refusal>
    ensures idle { conn.old.in_transaction ≡ false → conn.new.in_transaction ≡ false }
    ensures live { conn.old.in_transaction ≡ false → IsLive (state S.Store conn.old) }
    ensures reads { OnlyReads (state S.Store conn.old) (state S.Store conn.new) }
    ensures is_open { HasCleanDisk (state S.Store conn.new) → OnOk result (IsTrue (state S.Store conn.new).is_open) }
    ensures version { IfOk result (λ tables. (version : Version) → (state S.Store conn.old).now.schema ≡ schema_of version → tables.version ≡ version) }
    ensures second { IfOk result (λ tables. HasTableQuantity (state S.Store conn.old).now.schema → tables.version ≡ Second) }
    ensures rows { IfOk result (λ tables. IsClean (state S.Store conn.new) → (version : Version) → (state S.Store conn.new).committed.schema ≡ schema_of version → (tables.version ≡ version) × StoresEach version tables.rows.items tables.receipts.items (state S.Store conn.new).committed) }
    ensures refused { IfErr result IsOpeningRefusal }
    ensures damaged { IfErr result (λ r. r ≡ Refusal.Damaged → IsClean (state S.Store conn.new) → (version : Version) → (state S.Store conn.new).committed.schema ≡ schema_of version → HoldsNoStateIn version (state S.Store conn.new).committed) }
{
    match read_rows(alloc, conn) {
        Ok(Some(tables)) => Ok(tables),
        Ok(None) => Err(Refusal::Damaged),
        Err(error) => Err(opening_refusal(&error)),
    }
}

// The well formed receipts that have just these rows, beside a plan that is loaded or isn't; `None` where there are none
// such. Before a plan is loaded none are kept.
fn receipts_beside(
    alloc: Global,
    is_loaded: bool,
    rows: &[ReceiptRow],
) -> Result<Option<Receipts>, AllocError>
    ensures { IfOk result (λ found. MatchOption found
        ((T : LastReceipts) → AreReceipts is_loaded T → ¬ AreRowsOf T rows.now)
        (λ T. AreReceipts is_loaded T × AreRowsOf T rows.now)) }
{
    if is_loaded {
        return receipts_of(alloc, rows);
    }
    if rows.is_empty() {
        return Ok(Some(Receipts::new(alloc)?));
    }
    Ok(None)
}

// The sound plan and the well formed receipts that have just these rows; `None` where there are none such. The error is
// always `Memory`.
fn state_in(alloc: Global, tables: &StoredTables) -> Result<Option<(Plan, Receipts)>, Refusal>
    ensures state { IfOk result (λ found. MatchOption found
        (AreOfNoState tables.now.rows.items tables.now.receipts.items)
        (λ it. IsStateOf tables.now.rows.items tables.now.receipts.items (record { plan = it.0.plan; receipts = it.1 }))) }
    ensures refused { IfErr result (λ r. r ≡ Refusal.Memory) }
{
    let Some(plan) = Plan::from_rows(alloc, &tables.rows)? else {
        return Ok(None);
    };
    let Some(receipts) = receipts_beside(alloc, plan.is_loaded(), &tables.receipts)? else {
        return Ok(None);
    };
    Ok(Some((plan, receipts)))
}

// What the tables hold: a plan and receipts, and the version of the tables.
#[derive(Drop)]
struct StoredState {
    version: Version,
    plan: Plan,
    receipts: Receipts,
}

// The plan and the receipts whose rows the tables hold, of either version. Refused as `Damaged` where they hold those of
// no sound plan with well formed receipts, as `Memory` for want of memory, as `Store` for any other fault of the store.
fn stored_state<S: Alter>(alloc: Global, conn: &mut Connection<S>) -> Result<StoredState, Refusal>
    ensures idle { conn.old.in_transaction ≡ false → conn.new.in_transaction ≡ false }
    ensures live { conn.old.in_transaction ≡ false → IsLive (state S.Store conn.old) }
    ensures reads { OnlyReads (state S.Store conn.old) (state S.Store conn.new) }
    ensures is_open { HasCleanDisk (state S.Store conn.new) → OnOk result (IsTrue (state S.Store conn.new).is_open) }
    ensures version { IfOk result (λ found. (version : Version) → (state S.Store conn.old).now.schema ≡ schema_of version → found.version ≡ version) }
    ensures second { IfOk result (λ found. HasTableQuantity (state S.Store conn.old).now.schema → found.version ≡ Second) }
    ensures sound { IfOk result (λ found. IsDeskState (record { plan = found.plan.plan; receipts = found.receipts })) }
    ensures tables { IfOk result (λ found. IsClean (state S.Store conn.new) → (version : Version) → (state S.Store conn.new).committed.schema ≡ schema_of version → (found.version ≡ version) × HoldsStateIn version (record { plan = found.plan.plan; receipts = found.receipts }) (state S.Store conn.new).committed) }
    ensures refused { IfErr result IsOpeningRefusal }
    ensures damaged { IfErr result (λ r. r ≡ Refusal.Damaged → IsClean (state S.Store conn.new) → (version : Version) → (state S.Store conn.new).committed.schema ≡ schema_of version → HoldsNoStateIn version (state S.Store conn.new).committed) }
{
    let read = kept_tables(alloc, conn)?;
    let tables = as_second(alloc, read)?;
    match state_in(alloc, &tables)? {
        Some(found) => Ok(StoredState {
            version: tables.version,
            plan: found.0,
            receipts: found.1,
        }),
        None => Err(Refusal::Damaged),
    }
}

// Makes tables of the first version those of the second, in one transaction; those of the second stay.
fn bring_up<S: Alter>(conn: &mut Connection<S>, stored: &StoredState) -> Result<(), Refusal>
    requires { conn.old.in_transaction ≡ false }
    ensures idle { conn.new.in_transaction ≡ false }
    ensures second { stored.now.version ≡ Second → (conn.new ≡ conn.old) × OnErr result ⊥ }
    ensures ok { stored.now.version ≡ First → HasCleanDisk (state S.Store conn.new) → OnOk result (IsCommitted (Upgrades stored.now.plan.plan.loaded stored.now.plan.plan.clock) (state S.Store conn.old) (state S.Store conn.new)) }
    ensures err { stored.now.version ≡ First → HasCleanDisk (state S.Store conn.new) → IsTrue (state S.Store conn.new).is_open → OnErr result (IsUndone (state S.Store conn.old) (state S.Store conn.new)) }
    ensures crash { stored.now.version ≡ First → Survives (state S.Store conn.old) (state S.Store conn.new) (LeavesMade (Upgrades stored.now.plan.plan.loaded stored.now.plan.plan.clock) (state S.Store conn.old)) }
    ensures refused { IfErr result IsOpeningRefusal }
    ensures damaged { IfErr result (λ r. r ≡ Refusal.Damaged → HasCleanDisk (state S.Store conn.new) → IsTrue (state S.Store conn.new).is_open → (state S.Store conn.old).committed.schema ≢ first_schema) }
{
    match stored.version {
        Version::First => {
            match upgrade_tables(conn, stored.plan.is_loaded(), stored.plan.clock()) {
                Ok(()) => Ok(()),
                Err(fault) => Err(opening_refusal(&fault)),
            }
        }
        Version::Second => Ok(()),
    }
}

// The plan and the receipts whose rows the tables hold. Tables of the first version are then those of the second.
// Refused as `Damaged` where the tables hold the rows of no sound plan with well formed receipts, or where the names of
// tables that lack are taken, as `Memory` for want of memory, as `Store` for any other fault of the store.
fn opened_state<S: Alter>(
    alloc: Global,
    conn: &mut Connection<S>,
) -> Result<(Plan, Receipts), Refusal>
    requires { conn.old.in_transaction ≡ false }
    ensures idle { conn.new.in_transaction ≡ false }
    ensures live { IsLive (state S.Store conn.old) }
    ensures is_open { HasCleanDisk (state S.Store conn.new) → OnOk result (IsTrue (state S.Store conn.new).is_open) }
    ensures sound { IfOk result (λ found. IsDeskState (record { plan = found.0.plan; receipts = found.1 })) }
    ensures tables { IfOk result (λ found. IsClean (state S.Store conn.new) → HasTables (state S.Store conn.new) → HoldsState (record { plan = found.0.plan; receipts = found.1 }) (state S.Store conn.new).committed) }
    ensures reads { HasTableQuantity (state S.Store conn.old).now.schema → OnlyReads (state S.Store conn.old) (state S.Store conn.new) }
    ensures of_first { IfOk result (λ found. HasCleanDisk (state S.Store conn.new) → HasFirstTables (state S.Store conn.old) → IsOpenedFirst (record { plan = found.0.plan; receipts = found.1 }) (state S.Store conn.old) (state S.Store conn.new)) }
    ensures refused { IfErr result IsOpeningRefusal }
    ensures damaged { IfErr result (λ r. r ≡ Refusal.Damaged → IsClean (state S.Store conn.new) → (version : Version) → (state S.Store conn.new).committed.schema ≡ schema_of version → HoldsNoStateIn version (state S.Store conn.new).committed) }
    ensures kept { HasCleanDisk (state S.Store conn.new) → IsTrue (state S.Store conn.new).is_open → IsTrue (state S.Store conn.old).is_open }
    ensures undone { IfErr result (λ r. IsClean (state S.Store conn.new) → (state S.Store conn.new).committed ≡ (state S.Store conn.old).committed) }
    ensures survives { Survives (state S.Store conn.old) (state S.Store conn.new) (MayBringUp (state S.Store conn.old)) }
{
    let stored = stored_state(alloc, conn)?;
    bring_up(conn, &stored)?;
    Ok((stored.plan, stored.receipts))
}

/// The plan and the receipts whose rows the tables hold. Tables of the first version are then those of the second.
/// Refused as `Damaged` where the tables hold the rows of no sound plan with well formed receipts, or where the names of
/// tables that lack are taken, and the store is open then; as `Memory` for want of memory, as `Store` for any other fault
/// of the store.
pub fn found_state<S: Alter>(
    alloc: Global,
    conn: &mut Connection<S>,
) -> Result<(Plan, Receipts), Refusal>
    requires { conn.old.in_transaction ≡ false }
    ensures idle { conn.new.in_transaction ≡ false }
    ensures live { IsLive (state S.Store conn.old) }
    ensures is_open { HasCleanDisk (state S.Store conn.new) → OnOk result (IsTrue (state S.Store conn.new).is_open) }
    ensures sound { IfOk result (λ found. IsDeskState (record { plan = found.0.plan; receipts = found.1 })) }
    ensures tables { IfOk result (λ found. IsClean (state S.Store conn.new) → HasTables (state S.Store conn.new) → HoldsState (record { plan = found.0.plan; receipts = found.1 }) (state S.Store conn.new).committed) }
    ensures reads { HasTableQuantity (state S.Store conn.old).now.schema → OnlyReads (state S.Store conn.old) (state S.Store conn.new) }
    ensures of_first { IfOk result (λ found. HasCleanDisk (state S.Store conn.new) → HasFirstTables (state S.Store conn.old) → IsOpenedFirst (record { plan = found.0.plan; receipts = found.1 }) (state S.Store conn.old) (state S.Store conn.new)) }
    ensures refused { IfErr result IsOpeningRefusal }
    ensures still_open { IfErr result (λ r. r ≡ Refusal.Damaged → HasCleanDisk (state S.Store conn.new) → IsTrue (state S.Store conn.new).is_open) }
    ensures damaged { IfErr result (λ r. r ≡ Refusal.Damaged → HasCleanDisk (state S.Store conn.new) → (version : Version) → (state S.Store conn.new).committed.schema ≡ schema_of version → HoldsNoStateIn version (state S.Store conn.new).committed) }
    ensures kept { HasCleanDisk (state S.Store conn.new) → IsTrue (state S.Store conn.new).is_open → IsTrue (state S.Store conn.old).is_open }
    ensures undone { IfErr result (λ r. HasCleanDisk (state S.Store conn.new) → IsOpenAfter (refused r) (state S.Store conn.new) → (state S.Store conn.new).committed ≡ (state S.Store conn.old).committed) }
    ensures survives { Survives (state S.Store conn.old) (state S.Store conn.new) (MayBringUp (state S.Store conn.old)) }
{
    match opened_state(alloc, conn) {
        Ok(found) => Ok(found),
        Err(refusal) => Err(refusal_told(conn, refusal)),
    }
}
