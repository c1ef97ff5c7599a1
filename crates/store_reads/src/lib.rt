//! What the tables of either version hold, read back: each stored row as the row of a plan or of a receipt, or that it is
//! none.
#![tactic(auto)]

mod decoding;
mod tables;

pub use decoding::{Table, decode, decode_all, decode_receipts};
pub use tables::{StoredTables, as_second, read_rows};
