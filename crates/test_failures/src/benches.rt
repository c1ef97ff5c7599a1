// Desks over a store, of which contracts see nothing: each call of a desk is made here alone.
use desk_serving::{
    Desk, KnownStarts, Plan, ReportFault, Terms, open_again, ready_report, serve_one, serve_wanted,
};
pub use desk_serving::{Journal, ServeFault, WireFault, read_operator};
use plan_basics::{OpKey, Refusal, TrackerName, Watched, WsName};
use plan_records::{Reply, Request};
use sqlite::{Alter, Connection};
use sqlite_trees::store::Reopen;
use std::alloc::Global;
use std::io::Write;
use test_wires::{Paper, Pieces, Unseen};

/// A desk over a store.
pub type Bench<S> = Unseen<Desk<S>>;

/// A desk; or why there is none, and the connection, unless its store can't be opened again.
pub type Opening<S> = Result<Bench<S>, (Refusal, Option<Connection<S>>)>;

/// How a desk is had over a connection.
#[derive(Clone, Copy)]
pub enum Had {
    /// It is made.
    Made,
    /// It is opened.
    Opened,
    /// It is opened over what a stop leaves.
    OpenedAgain,
}

/// One that is made over a connection.
pub fn created<S: Alter + Drop>(alloc: Global, conn: Connection<S>) -> Opening<S> {
    match Desk::create(alloc, conn) {
        Ok(held) => Ok(Unseen { held }),
        Err((refusal, conn)) => Err((refusal, Some(conn))),
    }
}

// The one that is opened over a connection.
fn opened<S: Alter + Drop>(alloc: Global, conn: Connection<S>) -> Opening<S> {
    match Desk::open(alloc, conn) {
        Ok(held) => Ok(Unseen { held }),
        Err((refusal, conn)) => Err((refusal, Some(conn))),
    }
}

// The one that is opened over what a stop leaves.
fn opened_again<S: Alter + Reopen + Drop>(alloc: Global, conn: Connection<S>) -> Opening<S> {
    match open_again(alloc, conn) {
        Ok(Ok(held)) => Ok(Unseen { held }),
        Ok(Err((refusal, conn))) => Err((refusal, Some(conn))),
        Err(_) => Err((Refusal::Store, None)),
    }
}

/// The desk that is had so over a connection.
pub fn desk_over<S: Alter + Reopen + Drop>(
    alloc: Global,
    conn: Connection<S>,
    had: Had,
) -> Opening<S> {
    match had {
        Had::Made => created(alloc, conn),
        Had::Opened => opened(alloc, conn),
        Had::OpenedAgain => opened_again(alloc, conn),
    }
}

/// The connection of a desk.
pub fn closed<S: Alter + Drop>(bench: Bench<S>) -> Connection<S> {
    bench.held.close()
}

/// What a desk replies to an operator's request.
pub fn called<S: Alter + Drop>(bench: &mut Bench<S>, request: &Request) -> Reply {
    bench.held.call(request)
}

/// What it replies to a tracker's request of this number and this text.
pub fn called_numbered<S: Alter + Drop>(
    bench: &mut Bench<S>,
    tracker: &TrackerName,
    number: u64,
    text: &[u8],
    request: &Request,
) -> Reply {
    bench.held.call_numbered(tracker, number, text, request)
}

/// Serves a connection, as one of so many; or why it is broken off.
pub fn served<S: Alter + Drop, W: Write>(
    alloc: Global,
    bench: &mut Bench<S>,
    reader: &mut Watched<Pieces<'_>>,
    writer: &mut Watched<W>,
) -> Result<(), WireFault> {
    serve_one(alloc, reader, writer, &mut bench.held)
}

// Terms by which a day is as far ahead as a moment may be, and no start is known.
fn a_day_ahead(alloc: Global) -> Terms {
    Terms {
        ahead: Some(1440),
        bound: false,
        known: KnownStarts::none(alloc),
        watch: None,
    }
}

/// Serves a connection of a desk that is served for good; or why it is broken off.
pub fn served_for_good<S: Alter + Drop, W: Write>(
    alloc: Global,
    bench: &mut Bench<S>,
    reader: &mut Watched<Pieces<'_>>,
    writer: &mut Watched<W>,
    journal: &mut Journal<Paper>,
) -> Result<(), ServeFault> {
    let terms = a_day_ahead(alloc);
    serve_wanted(alloc, reader, writer, journal, &mut bench.held, &terms)
}

/// Whether the report of what is ready on CPU1 is cut by its writer, once these twenty bytes are written.
pub fn is_cut<S: Alter + Drop>(alloc: Global, bench: &Bench<S>, front: &[u8; 20]) -> bool {
    let mut room = [0; 20];
    let mut writer = Watched::new(&mut room[..]);
    let reported = match WsName::from_text(b"CPU1") {
        Some(workstation) => ready_report(alloc, &bench.held, &workstation, &mut writer),
        None => Ok(()),
    };
    matches!(reported, Err(ReportFault::Writer)) && room == *front
}

// Whether an operation of a plan has this mark and this status.
fn is_marked(plan: &Plan, key: &OpKey, mark: &str, status: &str) -> bool {
    match plan.view_op(key) {
        Some(view) => {
            view.mark.text() == mark && status.as_bytes() == [view.status.letter()].as_slice()
        }
        None => false,
    }
}

/// Whether an operation of a desk's plan has this mark and this status.
pub fn stands<S: Alter + Drop>(bench: &Bench<S>, key: &OpKey, mark: &str, status: &str) -> bool {
    is_marked(bench.held.plan(), key, mark, status)
}
