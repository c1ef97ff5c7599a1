//! Plays of the lower layers: calls that take memory, each once where there is enough; readers and writers that fail; and
//! what texts of plans, additions and extensions are told. The crate of tests calls them.
#![tactic(auto)]

pub mod graphs;
pub mod holdings;
pub mod minutes;
pub mod pieces;
pub mod receipts;
pub mod resources;
pub mod starts;
mod tables;
pub mod watching;
pub mod words;
