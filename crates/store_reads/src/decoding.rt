// The rows of a plan, and those of receipts beside it, read back from the tables that store them.
//
// A row of a table is read as the row of a plan that has its columns, or as none where no row of a plan has them: a
// column isn't in its range, a letter or a text stands for nothing, a name isn't legal. A row of the table of receipts
// is read with its columns as they are; whether there is such a receipt is not looked at here.

mod columns;
mod decoding;
mod operations;
mod receipts;
mod records;

pub use decoding::{decode, decode_all};
pub use receipts::decode_receipts;

/// One of the ten tables of a plan.
#[derive(Clone, Copy)]
pub enum Table {
    /// Whether a plan is loaded, and the clock.
    Meta,
    /// Workstations.
    Workstation,
    /// Open intervals of workstations.
    Interval,
    /// Special resources.
    Resource,
    /// Occurrences.
    Occurrence,
    /// Operations.
    Operation,
    /// Dependencies between operations.
    Dependency,
    /// Special resources that operations need.
    Need,
    /// How much there is of special resources.
    Quantity,
    /// How much operations need of special resources.
    Amount,
}
