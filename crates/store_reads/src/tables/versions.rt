// Rows of tables of the first version, as those of the second have them.
ghost use Rattle.std.specs.Prelude.{◌≡◌, map, IfOk};
ghost use Rattle.store_reads.specs.Versions.{as_second, in_other, other_version};

use crate::tables::rows::StoredTables;
use plan_records::PlanRow;
use std::alloc::{AllocError, Global};
use store_schema::Version;

// The version that the other tables name.
fn other_version(version: u32) -> u32
    ensures { result ≡ other_version version }
{
    if version == 1 {
        2
    } else if version == 2 {
        1
    } else {
        version
    }
}

// A row as the tables of the other version have it.
fn in_other(row: &PlanRow) -> PlanRow
    ensures { result ≡ in_other row.now }
{
    match *row {
        PlanRow::Meta {
            version,
            loaded,
            clock,
        } => PlanRow::Meta {
            version: other_version(version),
            loaded,
            clock,
        },
        row => row,
    }
}

// The rows as the tables of the other version have them.
fn turned(alloc: Global, rows: &[PlanRow]) -> Result<Vec<PlanRow>, AllocError>
    ensures { IfOk result (λ v. v.items ≡ map in_other rows.now) }
{
    rows.iter().map(in_other).collect(alloc)
}

// The rows of tables of this version as those of the second have them.
fn second_rows(
    alloc: Global,
    version: Version,
    rows: Vec<PlanRow>,
) -> Result<Vec<PlanRow>, AllocError>
    ensures { IfOk result (λ v. v.items ≡ as_second version rows.items) }
{
    match version {
        Version::First => turned(alloc, &rows),
        Version::Second => Ok(rows),
    }
}

/// What tables hold, with the rows of the first version as the tables of the second have them. So a row that names another
/// version than that of its tables is none of a plan's.
pub fn as_second(alloc: Global, tables: StoredTables) -> Result<StoredTables, AllocError>
    ensures version { IfOk result (λ second. second.version ≡ tables.version) }
    ensures rows { IfOk result (λ second. second.rows.items ≡ as_second tables.version tables.rows.items) }
    ensures receipts { IfOk result (λ second. second.receipts.items ≡ tables.receipts.items) }
{
    let rows = second_rows(alloc, tables.version, tables.rows)?;
    Ok(StoredTables {
        version: tables.version,
        rows,
        receipts: tables.receipts,
    })
}
