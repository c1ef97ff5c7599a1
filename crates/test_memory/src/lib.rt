//! Want of memory, made on purpose: all memory of the process is taken, and things are tried while it is held, or while it is
//! given back block by block. For plays alone.
#![tactic(auto)]

mod sweeps;
mod taking;

pub use sweeps::{MemoryOutcome, SPARES, Sweep, swept};
pub use taking::Held;
