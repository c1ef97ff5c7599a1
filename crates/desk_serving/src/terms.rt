// By what a desk is served.
use board_pages::{KnownStarts, Watch};

/// By what a desk is served.
#[derive(Drop)]
pub struct Terms {
    /// How many minutes after the plan's clock a request's moment may be, where there is such a limit.
    pub ahead: Option<u32>,
    /// Whether trackers are bound to their names: a report is taken from the tracker alone that its head names.
    pub bound: bool,
    /// The starts that are known, which forecasts take.
    pub known: KnownStarts,
    /// What the desk knows beside its plan, by its own clock, which the board tells; nothing before it is served.
    pub watch: Option<Watch>,
}
