//! The head of an exchange: what a request asks for or looks at, or the first test of its form that it fails, from the
//! bytes that a reader holds; and the bytes of a reply. No plan is asked here.
#![tactic(auto)]

mod asking;
mod bodies;
mod bytes;
mod fields;
mod heads;
mod hosts;
mod looks;
mod queries;
mod reading;
mod replies;
mod requesters;
mod routes;
mod statuses;
mod wanting;

pub use asking::{
    Asked, ExchangeFault, MOST_BODY_BYTES, MOST_FIELDS, MOST_HEAD_BYTES, Rejection, read_exchange,
    read_exchange_in,
};
pub use looks::{Detail, Look, Page};
pub use queries::{BoardQuery, Until};
pub use replies::{page_reply_bytes, reply_bytes, text_reply_bytes};
pub use requesters::MOST_REQUESTER_BYTES;
pub use statuses::{Method, Status};
pub use wanting::{Asking, Wanted, read_wanted};
