//! A desk that is served for good. What a look at it is shown: reports, shows, `why`, what is started and how the desk is, the
//! text of the forecast and the board's page; each is a text of the desk's plan, or the refusal that is owed
//! (`specs/Shown.antt`). What the text of a request is told, which isn't asked (`specs/Judged.antt`). And one exchange of it: the
//! desk is asked, within the clock's guard and between two lines of its journal (`tracker_http`), or looked at, by which nothing
//! changes; and the reply is written (`specs/Served.antt`).
#![tactic(auto)]

mod forecasts;
mod judging;
mod keyed;
mod served;
mod showing;
mod tables;
mod terms;

pub use board_pages::{Asked, KnownStarts, Watch};
pub use plan_records::Reply;
pub use plan_reports::{ReportFault, ready_report};
pub use served::{MOST_SERVED_BYTES, serve_wanted};
pub use showing::look_shown;
pub use terms::Terms;
pub use tracker_http::{
    Asking, Desk, Journal, Plan, ServeFault, Told, WireFault, journalled, open_again, read_asked,
    read_operator, serve_one,
};
