//! A plan's rows, written into its tables within a transaction: what changed is put in, and what is gone is taken out.
#![tactic(auto)]

mod changes;
mod columns;
mod creation;
mod numbered;
mod operation_rows;
mod quantity_rows;
mod receipt_rows;
mod resource_rows;
mod rows;
mod runs;
mod upgrade;
mod workstation_rows;

pub use changes::write_changes;
pub use creation::create_tables;
pub use numbered::write_numbered;
pub use rows::write_and_drop;
pub use upgrade::upgrade_tables;
