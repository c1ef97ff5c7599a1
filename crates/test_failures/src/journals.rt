// A journal whose writer fails: the start of the night, at a desk that is served for good.
use super::benches::{Bench, Journal, ServeFault, served_for_good, stands};
use super::places::Place;
use super::replies::Came;
use plan_basics::{OpKey, Watched};
use sqlite::{Alter, Connection};
use sqlite_trees::store::Reopen;
use std::alloc::Global;
use test_wires::{Paper, Pieces, START, accepted};

// The lines of the start and of its answer.
const LINES: &str = concat!(
    "{\"body\":\"{\\\"tracker\\\":\\\"T1\\\",\\\"number\\\":1,\\\"at\\\":\\\"2024-03-01T22:00\\\",",
    "\\\"do\\\":\\\"started\\\",\\\"op\\\":\\\"PAYROLL/2024-03-01T22:00/005\\\"}\",",
    "\"clock\":\"2024-03-01T21:00\",\"path\":\"/report\"}\n",
    "{\"reply\":{\"named\":[]},\"status\":200}\n",
);

// What came of the start: why it was broken off, if it was; what was written; and what the journal took.
#[derive(Drop)]
struct Outcome {
    fault: Option<ServeFault>,
    written: Vec<u8>,
    lines: Vec<u8>,
}

// What a journal took.
fn lines_of(alloc: Global, journal: Journal<Paper>) -> Vec<u8> {
    match journal {
        Journal::Kept(writer) => writer.into_inner().bytes,
        Journal::Absent => Vec::new(alloc),
    }
}

// What comes of the start where the journal's writer takes so many calls.
fn answered<S: Alter + Drop>(
    alloc: Global,
    bench: &mut Bench<S>,
    input: &str,
    calls: u32,
) -> Outcome {
    let mut reader = Watched::new(Pieces::new(input));
    let mut writer = Watched::new(Paper::new(alloc, u32::MAX));
    let mut journal = Journal::Kept(Watched::new(Paper::new(alloc, calls)));
    let ended = served_for_good(alloc, bench, &mut reader, &mut writer, &mut journal);
    Outcome {
        fault: ended.err(),
        written: writer.into_inner().bytes,
        lines: lines_of(alloc, journal),
    }
}

// Whether a start, by which operation 5 is started or not, came to this reply after both lines, or to the journal's fault after
// less; what acted has its line.
fn is_kept(came: &Outcome, reply: &str, is_started: bool) -> bool {
    let is_so = match came.fault {
        None => came.written.as_slice() == reply.as_bytes()
            && came.lines.as_slice() == LINES.as_bytes(),
        Some(ServeFault::Journal) => came.written.is_empty()
            && LINES.as_bytes().starts_with(&came.lines),
        Some(_) => false,
    };
    is_so && (!is_started || came.lines.contains(&b'\n'))
}

// Whether operation 5 is started.
fn is_started<S: Alter + Drop>(bench: &Bench<S>) -> bool {
    match OpKey::from_text(b"PAYROLL/2024-03-01T22:00/005") {
        Some(key) => stands(bench, &key, "running", "S"),
        None => false,
    }
}

/// What comes of the start where the journal's writer takes so many calls: whether operation 5 is started, and whether that is
/// told.
pub fn started<S: Alter + Drop>(
    alloc: Global,
    bench: &mut Bench<S>,
    calls: u32,
) -> Option<(bool, bool)> {
    let input = START.request(alloc)?;
    let reply = accepted(alloc)?;
    let came = answered(alloc, bench, &input, calls);
    let is_started = is_started(bench);
    if is_kept(&came, &reply, is_started) {
        Some((is_started, came.fault.is_none()))
    } else {
        None
    }
}

// The same at the night, of which a desk is made at a place.
fn started_at<S: Alter + Reopen + Drop>(
    alloc: Global,
    place: &mut Place<S>,
    calls: u32,
) -> Option<(bool, bool)> {
    for line in ["create", "NIGHT | names"] {
        if place.make_line(alloc, line) != Came::Done {
            return None;
        }
    }
    place.start(alloc, calls)
}

// The same at a desk of its own.
fn started_anew(alloc: Global, calls: u32) -> Option<(bool, bool)> {
    match Connection::open_in_memory(alloc) {
        Ok(conn) => started_at(alloc, &mut Place::over(conn), calls),
        Err(_) => None,
    }
}

/// A journal whose writer fails at each call: what acted has its line, and what is told has both.
pub fn a_journal_that_fails_at_each_call(alloc: Global) -> Result<(), &'static str> {
    let mut acted = 0u32;
    let mut told = 0u32;
    for calls in 0..24 {
        let (is_started, is_told) = started_anew(alloc, calls).ok_or(
            "a journal's writer that fails",
        )?;
        acted = acted.saturating_add(u32::from(is_started));
        told = told.saturating_add(u32::from(is_told));
    }
    if told > 0 && acted > told && acted < 24 {
        Ok(())
    } else {
        Err("no call failed before the request, between the lines, or after them")
    }
}
