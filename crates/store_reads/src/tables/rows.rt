// The rows of a plan and of receipts that all tables hold.
ghost use Rattle.std.specs.Prelude.{◌≡◌, false, true, IfErr, IfOk, IfSome, IsErrOf, IsTrue, MatchBool, MatchOption, None, OnOk};
ghost use Rattle.std.specs.List.{AllByRecursion};
ghost use Rattle.sqlite.specs.Held.{state};
ghost use Rattle.sqlite.specs.State.{HasCleanDisk, IsLive, IsUnchanged};
ghost use Rattle.sqlite.specs.declared.error.Error.TheVariants.{SqliteFailure};
ghost use Rattle.sqlite.specs.declared.error.ErrorCode.TheVariants.{TransactionState};
ghost use Rattle.store_schema.specs.Schema.{schema_of};
ghost use Rattle.store_schema.specs.declared.texts.Version.{Version};
ghost use Rattle.store_schema.specs.declared.texts.Version.TheVariants.{Second};
ghost use Rattle.store_reads.specs.Reads.{IsNotOfTables, OnlyReads, ShowsSame};
ghost use Rattle.store_reads.specs.Tables.{AddsTable, AreRead, AreReceiptsRead, HasOtherRow, IsIn, StoresEach, tables_of};
ghost use Rattle.store_reads.specs.Versions.{has_quantity, HasTableQuantity};

use crate::decoding::{Table, decode_all, decode_receipts};
use crate::tables::queries::{query_receipts, query_table};
use crate::tables::rising::rowids_rise;
use plan_records::PlanRow;
use sqlite::{Alter, Connection, Error, ErrorCode};
use sqlite_resolve::CompileError;
use std::alloc::Global;
use store_schema::{ReceiptRow, Version};

/// What the tables hold.
#[derive(Drop)]
pub struct StoredTables {
    /// Which tables there are.
    pub version: Version,
    /// The rows of a plan, each once.
    pub rows: Vec<PlanRow>,
    /// The rows of receipts, no two of one tracker.
    pub receipts: Vec<ReceiptRow>,
}

// All tables of a plan, in the order in which they are read.
const ALL_TABLES: [Table; 10] = [
    Table::Meta,
    Table::Workstation,
    Table::Interval,
    Table::Resource,
    Table::Occurrence,
    Table::Operation,
    Table::Dependency,
    Table::Need,
    Table::Quantity,
    Table::Amount,
];

// The tables of a plan in a version.
fn tables_of(version: Version) -> &'static [Table]
    ensures { result.now ≡ tables_of version }
{
    match version {
        Version::First => &ALL_TABLES[..8],
        Version::Second => &ALL_TABLES,
    }
}

// Reads one table of a plan, and appends its rows. Answers `false` where one of them is no row of a plan. Refused as
// `DatabaseCorrupt` where the rowids don't rise, which no sound store shows.
fn read_table<S: Alter>(
    conn: &mut Connection<S>,
    table: Table,
    into: &mut Vec<PlanRow>,
) -> Result<bool, Error>
    ensures idle { conn.old.in_transaction ≡ false → conn.new.in_transaction ≡ false }
    ensures reads { OnlyReads (state S.Store conn.old) (state S.Store conn.new) }
    ensures same { HasCleanDisk (state S.Store conn.new) → OnOk result (IsUnchanged (state S.Store conn.old) (state S.Store conn.new)) }
    ensures rows { HasCleanDisk (state S.Store conn.new) → IsLive (state S.Store conn.old) → (version : Version) → IsIn version table → (state S.Store conn.old).now.schema ≡ schema_of version → IfOk result (λ all. MatchBool all (AddsTable table (state S.Store conn.old).now.trees into.old.items into.new.items) (HasOtherRow version (state S.Store conn.old).now.trees)) }
    ensures understood { HasCleanDisk (state S.Store conn.new) → (version : Version) → IsIn version table → (state S.Store conn.old).now.schema ≡ schema_of version → IfErr result IsNotOfTables }
{
    let rows = query_table(conn, table)?;
    if !rowids_rise(&rows) {
        return Err(Error::SqliteFailure(ErrorCode::DatabaseCorrupt));
    }
    Ok(decode_all(table, &rows, into)?)
}

// Reads these tables of a plan, one after another. Answers `None` where a row of one of them is no row of a plan.
fn read_tables<S: Alter>(
    alloc: Global,
    conn: &mut Connection<S>,
    tables: &[Table],
) -> Result<Option<Vec<PlanRow>>, Error>
    ensures idle { conn.old.in_transaction ≡ false → conn.new.in_transaction ≡ false }
    ensures reads { OnlyReads (state S.Store conn.old) (state S.Store conn.new) }
    ensures same { HasCleanDisk (state S.Store conn.new) → OnOk result (ShowsSame (state S.Store conn.old) (state S.Store conn.new)) }
    ensures is_open { HasCleanDisk (state S.Store conn.new) → IfOk result (λ found. found ≡ None → IsTrue (state S.Store conn.new).is_open) }
    ensures rows { HasCleanDisk (state S.Store conn.new) → IsLive (state S.Store conn.old) → (version : Version) → AllByRecursion (IsIn version) tables.now → (state S.Store conn.old).now.schema ≡ schema_of version → IfOk result (λ found. MatchOption found (HasOtherRow version (state S.Store conn.old).now.trees) (λ rows. AreRead tables.now (state S.Store conn.old).now.trees rows.items)) }
    ensures understood { HasCleanDisk (state S.Store conn.new) → (version : Version) → AllByRecursion (IsIn version) tables.now → (state S.Store conn.old).now.schema ≡ schema_of version → IfErr result IsNotOfTables }
{
    let mut rows = Vec::new(alloc);
    for table in tables {
        if !read_table(conn, *table, &mut rows)? {
            return Ok(None);
        }
    }
    Ok(Some(rows))
}

// Reads the table of receipts. Answers `None` where one of its rows is no row of a receipt. Refused as
// `DatabaseCorrupt` where the rowids don't rise, which no sound store shows.
fn read_receipts<S: Alter>(
    alloc: Global,
    conn: &mut Connection<S>,
) -> Result<Option<Vec<ReceiptRow>>, Error>
    ensures idle { conn.old.in_transaction ≡ false → conn.new.in_transaction ≡ false }
    ensures reads { OnlyReads (state S.Store conn.old) (state S.Store conn.new) }
    ensures same { HasCleanDisk (state S.Store conn.new) → OnOk result (IsUnchanged (state S.Store conn.old) (state S.Store conn.new)) }
    ensures rows { HasCleanDisk (state S.Store conn.new) → IsLive (state S.Store conn.old) → (version : Version) → (state S.Store conn.old).now.schema ≡ schema_of version → IfOk result (λ found. MatchOption found (HasOtherRow version (state S.Store conn.old).now.trees) (λ receipts. AreReceiptsRead (state S.Store conn.old).now.trees receipts.items)) }
    ensures understood { HasCleanDisk (state S.Store conn.new) → (version : Version) → (state S.Store conn.old).now.schema ≡ schema_of version → IfErr result IsNotOfTables }
{
    let stored = query_receipts(conn)?;
    if !rowids_rise(&stored) {
        return Err(Error::SqliteFailure(ErrorCode::DatabaseCorrupt));
    }
    Ok(decode_receipts(alloc, &stored)?)
}

// Reads all tables. Answers `None` where a row of one of them is no row of a plan, or none of a receipt.
fn read_all<S: Alter>(
    alloc: Global,
    conn: &mut Connection<S>,
    version: Version,
) -> Result<Option<StoredTables>, Error>
    ensures idle { conn.old.in_transaction ≡ false → conn.new.in_transaction ≡ false }
    ensures reads { OnlyReads (state S.Store conn.old) (state S.Store conn.new) }
    ensures is_open { HasCleanDisk (state S.Store conn.new) → OnOk result (IsTrue (state S.Store conn.new).is_open) }
    ensures version { IfOk result (λ found. IfSome found (λ tables. tables.version ≡ version)) }
    ensures rows { HasCleanDisk (state S.Store conn.new) → IsLive (state S.Store conn.old) → (state S.Store conn.old).now.schema ≡ schema_of version → IfOk result (λ found. MatchOption found (HasOtherRow version (state S.Store conn.old).now.trees) (λ tables. AreRead (tables_of version) (state S.Store conn.old).now.trees tables.rows.items × AreReceiptsRead (state S.Store conn.old).now.trees tables.receipts.items)) }
    ensures understood { HasCleanDisk (state S.Store conn.new) → (state S.Store conn.old).now.schema ≡ schema_of version → IfErr result IsNotOfTables }
{
    let Some(rows) = read_tables(alloc, conn, tables_of(version))? else {
        return Ok(None);
    };
    let Some(receipts) = read_receipts(alloc, conn)? else {
        return Ok(None);
    };
    Ok(Some(StoredTables {
        version,
        rows,
        receipts,
    }))
}

// Whether there is a table `meta`. Without it no plan was ever made here.
fn has_meta<S: Alter>(conn: &Connection<S>) -> bool
    ensures live { IsLive (state S.Store conn.now) }
    ensures there { (version : Version) → (state S.Store conn.now).now.schema ≡ schema_of version → IsTrue result }
{
    conn.schema().table_named(b"meta").is_some()
}

// Whether there is a table `quantity`.
fn has_quantity<S: Alter>(conn: &Connection<S>) -> bool
    ensures version { (version : Version) → (state S.Store conn.now).now.schema ≡ schema_of version → result ≡ has_quantity version }
    ensures there { HasTableQuantity (state S.Store conn.now).now.schema → IsTrue result }
{
    conn.schema().table_named(b"quantity").is_some()
}

// Which tables there are.
fn version_in<S: Alter>(conn: &Connection<S>) -> Version
    ensures version { (version : Version) → (state S.Store conn.now).now.schema ≡ schema_of version → result ≡ version }
    ensures second { HasTableQuantity (state S.Store conn.now).now.schema → result ≡ Second }
{
    if has_quantity(conn) {
        Version::Second
    } else {
        Version::First
    }
}

/// Reads all tables: the rows of a plan that they hold, each once, and those of receipts, no two of one tracker; or
/// `None` where they hold a row that is no plan's and no receipt's.
///
/// Nothing is written, and what was committed stays. Where rows or `None` are answered, the store is open. Refused as
/// `TransactionState` in a transaction; as `SqlInputError` where a table or a column lacks; as `DatabaseCorrupt` where a
/// table's rowids don't rise, which no sound store shows; as `OutOfMemory` for want of memory; and for a fault of the
/// store. What is answered holds where the tables are those of a version.
pub fn read_rows<S: Alter>(
    alloc: Global,
    conn: &mut Connection<S>,
) -> Result<Option<StoredTables>, Error>
    ensures idle { conn.old.in_transaction ≡ false → conn.new.in_transaction ≡ false }
    ensures busy { conn.old.in_transaction ≡ true → IsErrOf result (SqliteFailure TransactionState) }
    ensures live { conn.old.in_transaction ≡ false → IsLive (state S.Store conn.old) }
    ensures reads { OnlyReads (state S.Store conn.old) (state S.Store conn.new) }
    ensures is_open { HasCleanDisk (state S.Store conn.new) → OnOk result (IsTrue (state S.Store conn.new).is_open) }
    ensures version { IfOk result (λ found. IfSome found (λ tables. (version : Version) → (state S.Store conn.old).now.schema ≡ schema_of version → tables.version ≡ version)) }
    ensures second { IfOk result (λ found. IfSome found (λ tables. HasTableQuantity (state S.Store conn.old).now.schema → tables.version ≡ Second)) }
    ensures rows { HasCleanDisk (state S.Store conn.new) → IsTrue (state S.Store conn.new).is_open → (version : Version) → (state S.Store conn.new).committed.schema ≡ schema_of version → IfOk result (λ found. MatchOption found (HasOtherRow version (state S.Store conn.new).committed.trees) (λ tables. (tables.version ≡ version) × StoresEach version tables.rows.items tables.receipts.items (state S.Store conn.new).committed)) }
    ensures understood { HasCleanDisk (state S.Store conn.new) → IsTrue (state S.Store conn.new).is_open → (version : Version) → (state S.Store conn.new).committed.schema ≡ schema_of version → IfErr result IsNotOfTables }
{
    if !conn.is_autocommit() {
        return Err(Error::SqliteFailure(ErrorCode::TransactionState));
    }
    if !has_meta(conn) {
        return Err(Error::SqlInputError(CompileError::NoSuchTable));
    }
    read_all(alloc, conn, version_in(conn))
}
