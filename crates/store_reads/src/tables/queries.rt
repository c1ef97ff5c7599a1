// The rows of one table, as the database shows them.
ghost use Rattle.std.specs.Prelude.{◌≡◌, [], false, true, IfErr, IfOk, IsTrue, OnOk};
ghost use Rattle.std.specs.List.Sorted.{IsPermutation};
ghost use Rattle.sqlite.specs.Effect.{IsDatabase};
ghost use Rattle.sqlite.specs.Held.{state};
ghost use Rattle.sqlite.specs.State.{HasCleanDisk, IsLive, IsUnchanged};
ghost use Rattle.store_schema.specs.Schema.{schema_of};
ghost use Rattle.store_schema.specs.declared.texts.Version.{Version};
ghost use Rattle.store_reads.specs.Reads.{IsNotOfTables, OnlyReads};
ghost use Rattle.store_reads.specs.Tables.{IsIn, receipt_rows, rows_of, text_for};

use crate::decoding::Table;
use sqlite::{Alter, Connection, Error, Row};
use store_schema::{
    READ_AMOUNT, READ_DEPENDENCY, READ_INTERVAL, READ_META, READ_NEED, READ_OCCURRENCE,
    READ_OPERATION, READ_QUANTITY, READ_RECEIPT, READ_RESOURCE, READ_WORKSTATION,
};

// The text that reads a table of a plan: its rowids first, and its rows in their order.
fn read_text(table: Table) -> &'static str
    ensures { result.now ≡ text_for table }
{
    match table {
        Table::Meta => READ_META,
        Table::Workstation => READ_WORKSTATION,
        Table::Interval => READ_INTERVAL,
        Table::Resource => READ_RESOURCE,
        Table::Occurrence => READ_OCCURRENCE,
        Table::Operation => READ_OPERATION,
        Table::Dependency => READ_DEPENDENCY,
        Table::Need => READ_NEED,
        Table::Quantity => READ_QUANTITY,
        Table::Amount => READ_AMOUNT,
    }
}

// All rows of a table of a plan, each behind its rowid.
pub fn query_table<S: Alter>(conn: &mut Connection<S>, table: Table) -> Result<Vec<Row>, Error>
    ensures idle { conn.old.in_transaction ≡ false → conn.new.in_transaction ≡ false }
    ensures reads { OnlyReads (state S.Store conn.old) (state S.Store conn.new) }
    ensures same { HasCleanDisk (state S.Store conn.new) → OnOk result (IsUnchanged (state S.Store conn.old) (state S.Store conn.new)) }
    ensures rows { HasCleanDisk (state S.Store conn.new) → IsLive (state S.Store conn.old) → (version : Version) → IsIn version table → (state S.Store conn.old).now.schema ≡ schema_of version → IfOk result (λ rows. IsPermutation (rows_of table (state S.Store conn.old).now.trees) rows.items) }
    ensures understood { HasCleanDisk (state S.Store conn.new) → (version : Version) → IsIn version table → (state S.Store conn.old).now.schema ≡ schema_of version → IfErr result IsNotOfTables }
{
    conn.query_all(read_text(table), &[])
}

// All rows of the table of receipts, each behind its rowid.
pub fn query_receipts<S: Alter>(conn: &mut Connection<S>) -> Result<Vec<Row>, Error>
    ensures idle { conn.old.in_transaction ≡ false → conn.new.in_transaction ≡ false }
    ensures reads { OnlyReads (state S.Store conn.old) (state S.Store conn.new) }
    ensures same { HasCleanDisk (state S.Store conn.new) → OnOk result (IsUnchanged (state S.Store conn.old) (state S.Store conn.new)) }
    ensures rows { HasCleanDisk (state S.Store conn.new) → IsLive (state S.Store conn.old) → (version : Version) → (state S.Store conn.old).now.schema ≡ schema_of version → IfOk result (λ rows. IsPermutation (receipt_rows (state S.Store conn.old).now.trees) rows.items) }
    ensures understood { HasCleanDisk (state S.Store conn.new) → (version : Version) → (state S.Store conn.old).now.schema ≡ schema_of version → IfErr result IsNotOfTables }
{
    conn.query_all(READ_RECEIPT, &[])
}
