//! The commands that make requests at a desk, over any store: `check`, `load`, `extend` and `do`; a load into a database, whose
//! desk is made where it has no table; `play` of a text of requests, line by line, at a desk in memory; and `play --journal`:
//! what a journal accepted is carried out at such a desk, and the answers are compared with the journal's.
#![tactic(auto)]

mod loading;
mod loads;
mod playing;
mod replaying;
mod requests;

pub use loading::{check, load};
pub use loads::load_into;
pub use playing::play_file;
pub use replaying::replay_files;
pub use requests::{extend, make};
