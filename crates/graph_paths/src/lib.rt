//! Paths of a graph: what is reached backwards along edges, and where that begins; and, in a list of edges, the first that
//! closes a path, with that path.
#![tactic(auto)]

mod ancestors;
mod returns;

pub use ancestors::{flagged_preds, sources, upstream};
pub use returns::{Return, returning_path};
