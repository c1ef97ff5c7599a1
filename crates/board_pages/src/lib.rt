//! The board: one page of HTML that tells what time it is, whether the night holds, and who has to do what, read off a
//! forecast. It has no script and takes nothing from outside, and asks to be loaded again every thirty seconds, unless it is to be
//! still.
#![tactic(auto)]

mod bars;
mod boards;
mod choices;
mod laws;
mod markup;
mod pages;
mod rows;
mod tables;
mod views;

pub use boards::board_made;
pub use forecast_texts::{KnownStarts, Outlooks, Plan, forecast_made, outlooks};
pub use laws::unknown_is_told;
pub use pages::board_page;
pub use views::{Asked, View, Watch};
