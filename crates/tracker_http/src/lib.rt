//! One exchange of a tracker or an operator with the desk: a request over HTTP is read, the desk answers it, and the
//! reply is written.
//!
//! | Request | What is told |
//! |---|---|
//! | `POST /report` | the desk's answer to the numbered report of a tracker |
//! | `POST /operator` | the desk's answer to a request of an operator |
//! | `GET /ready/WS` | the ready list of a workstation, in ready order |
//! | `GET /occurrences` | the occurrences of the plan, in key order |
//!
//! Bodies are JSON (`request_json`), heads HTTP (`http_messages`); what a reply tells is [`Told`]. What an
//! exchange is, from the bytes of a connection to those of the reply, is one relation (`specs/Exchange.antt`). At a desk
//! that is served for good a request is asked within the clock's guard, and between two lines of a journal, and what is wrong
//! with a body that is no report, or no operator's request, is told.
#![tactic(auto)]

mod asking;
mod exchange;
mod faulty;
mod journalling;
mod lists;
mod reading;
mod replying;
mod told;

pub use asking::tell_within;
pub use desk_journal::{Entry, Journal, JournalFault, read_entry};
pub use desk_tables::{Desk, Plan, open_again};
pub use exchange::{send, serve_one};
pub use faulty::{fault_lines, line_values, value_text};
pub use http_messages::{Asked, Asking};
pub use journalling::{journalled, line_told};
pub use reading::{MOST_WHOLE_BYTES, Reading, read_asked};
pub use replying::{ServeFault, asked_reply};
pub use request_json::{Brought, WireFault, brought_records, read_operator};
pub use told::Told;
