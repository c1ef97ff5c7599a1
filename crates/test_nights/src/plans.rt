// Nights in memory: how many records requests look at; and what wants memory: nights, a run, and what is made of texts and of
// records.
mod chains;
mod growths;
mod in_memory;
mod making;
mod wanting;

use super::playing::{Deviation, pass};
pub use making::all_is_made_at_last;
use std::alloc::Global;
pub use wanting::run_is_made_at_last;

/// Plays a night of requests by a plan in memory, which counts its looks.
pub fn looks_at_chains(alloc: Global) -> Result<(), Deviation<'static>> {
    pass::<in_memory::InMemory>(alloc, chains::CHAINS)
}

/// Plays six nights by a plan in want of memory.
pub fn nights_in_want_of_memory(alloc: Global) -> Result<(), Deviation<'static>> {
    pass::<wanting::Wanting>(alloc, growths::GROWTHS)
}
