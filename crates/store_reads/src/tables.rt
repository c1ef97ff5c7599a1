// The rows of a plan and those of receipts, read from all tables of a database.
//
// Each table is read by one text, in the order of its rowids, and its rows are decoded. What is answered are the rows
// of a plan that the tables hold, all of them and each once, and those of receipts, one of a tracker at most; or that the
// tables hold another row. Tables of the first version are read too: they have no quantities and amounts. Nothing is
// written.

mod queries;
mod rising;
mod rows;
mod versions;

pub use rows::{StoredTables, read_rows};
pub use versions::as_second;
