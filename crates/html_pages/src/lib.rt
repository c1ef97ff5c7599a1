//! Pages of HTML: templates into whose holes texts are put, which can't break them; how each page begins; the pages that need no
//! forecast: why there is no board, the paths of a desk, and a look's text with its keys as paths. No page has a script, or takes
//! anything from outside.
#![tactic(auto)]

mod beginnings;
mod laws;
mod looks;
mod pieces;
mod refusals;

pub use beginnings::put_beginning;
pub use laws::names_cannot_break;
pub use looks::look_page;
pub use pieces::{Value, put};
pub use refusals::{front_page, refused_page};
