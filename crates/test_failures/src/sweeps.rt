// A stop after each call of each of the two files.
use super::FAILED;
use super::benches::Had;
use super::cases::{Case, StopOutcome, bytes_after, texts_of};
use super::disks::{Bytes, End, Stop};
use super::replies::Came;
use super::scripts::{KINDS, OPENING, SCRIPT};
use std::alloc::Global;

// More calls than lines make of either file.
const MOST_CALLS: u64 = 4000;

// How many stops there are in the calls of one of the files; or what goes otherwise after one of them.
fn stops_in(alloc: Global, case: &Case<'_>, is_log: bool, end: End) -> Result<u64, &'static str> {
    let mut stops = 0u64;
    for calls in 0..MOST_CALLS {
        let stop = Stop {
            is_log,
            calls,
            end,
            copies: case.copies,
        };
        match case.outcome(alloc, stop) {
            StopOutcome::Recovered => stops = stops.saturating_add(1),
            StopOutcome::Earlier => {}
            StopOutcome::NoStop => return Ok(stops),
            StopOutcome::Otherwise(what) => return Err(what),
        }
    }
    Err("there is no end of calls")
}

// The lines are stopped after each call of each file, of which there are more than so many, and go on each time.
fn sweep(alloc: Global, case: &Case<'_>, end: End, least: u64) -> Result<(), &'static str> {
    let of_log = stops_in(alloc, case, true, end)?;
    let of_db = stops_in(alloc, case, false, end)?;
    if of_log > least && of_db > least {
        Ok(())
    } else {
        Err("there are fewer calls than lines")
    }
}

// The first lines of a script over files, whose stops are looked for; the files are as they were before it.
fn sweep_lines(
    alloc: Global,
    files: &Bytes,
    lines: &str,
    stopped: &str,
    end: End,
    least: u64,
) -> Result<(), &'static str> {
    match Case::over(alloc, files, lines, stopped, 0, false) {
        Some(case) => sweep(alloc, &case, end, least),
        None => Err("a line is answered otherwise, without a stop"),
    }
}

/// The night, stopped at each call of each file.
pub fn the_night_is_stopped(alloc: Global, end: End) -> Result<(), &'static str> {
    sweep_lines(alloc, &Bytes::none(alloc), SCRIPT, SCRIPT, end, 7)
}

/// An opening of tables of the first version, stopped at each call of each file.
pub fn the_opening_is_stopped(alloc: Global, end: End) -> Result<(), &'static str> {
    let files = bytes_after(alloc, &Bytes::none(alloc), "first", false).ok_or(FAILED)?;
    sweep_lines(alloc, &files, OPENING, "open", end, 1)
}

/// The power that is cut after each step of the night: the desk that is opened over what was left goes on where it was.
pub fn the_power_cut_after_each_step(alloc: Global) -> Result<(), &'static str> {
    let files = Bytes::none(alloc);
    let texts = texts_of(alloc, &files, SCRIPT, Had::Opened).ok_or(FAILED)?;
    match texts_of(alloc, &files, SCRIPT, Had::OpenedAgain) {
        Some(again) if again == texts => Ok(()),
        _ => Err("a step after a stop goes otherwise"),
    }
}

/// How a request of each kind is stopped: once, at each of its calls; or, where it names an operation, twice: at each of its calls
/// of the log (true) or of the database's file, and then at each call of the opening over what that left, at which the power is
/// cut.
#[derive(Clone, Copy)]
pub enum Stops {
    Once(End),
    Twice(bool),
}

// The power is cut at each call of the opening over what a stop left in the files of a request, as they were last written; the
// request, of these lines, ends in the last of these texts, as it does without a stop.
fn sweep_recovery(
    alloc: Global,
    left: &Bytes,
    lines: &str,
    texts: &[Vec<u8>],
) -> Result<(), &'static str> {
    match Case::over(alloc, left, lines, "open", 0, true) {
        Some(case) if case.ends_so(texts) => sweep(alloc, &case, End::POWER_CUT, 1),
        _ => Err("a request that is made again after a stop doesn't act once"),
    }
}

// A request is stopped at each of its calls of one of the files, and then the opening over what that left.
fn sweep_twice(alloc: Global, case: &Case<'_>, is_log: bool) -> Result<(), &'static str> {
    for calls in 0..MOST_CALLS {
        let stop = Stop {
            is_log,
            calls,
            end: End::KILLED,
            copies: true,
        };
        let left = case.left_by(alloc, stop).ok_or(FAILED)?;
        match left.played.came {
            Came::Store if left.played.at < case.first => {}
            Came::Store => sweep_recovery(alloc, &left.bytes, case.lines, &case.texts)?,
            Came::Done => return Ok(()),
            _ => return Err("a request is answered otherwise"),
        }
    }
    Err("there is no end of calls")
}

// The request of a line is stopped so.
fn sweep_case(
    alloc: Global,
    case: &Case<'_>,
    kind: &str,
    stops: Stops,
) -> Result<(), &'static str> {
    match stops {
        Stops::Once(end) => sweep(alloc, case, end, 1),
        Stops::Twice(is_log) if kind.contains("\"named\":[\"") => sweep_twice(alloc, case, is_log),
        Stops::Twice(_) => Ok(()),
    }
}

// The request of a line over files is stopped so; and what stands in them after it.
fn swept(
    alloc: Global,
    kind: &'static str,
    files: &Bytes,
    stops: Stops,
) -> Result<Bytes, &'static str> {
    let lines = format!(in alloc; "open\n{kind}").ok().ok_or(FAILED)?;
    match Case::over(alloc, files, &lines, &lines, 1, true) {
        Some(case) if case.changes() => sweep_case(alloc, &case, kind, stops)?,
        _ => return Err(kind),
    }
    bytes_after(alloc, files, &lines, true).ok_or(kind)
}

/// A request of each kind is stopped so, one after another.
pub fn each_kind_is_stopped(alloc: Global, stops: Stops) -> Result<(), &'static str> {
    let mut files = bytes_after(alloc, &Bytes::none(alloc), "create", false).ok_or(FAILED)?;
    for kind in KINDS.lines() {
        files = swept(alloc, kind, &files, stops)?;
    }
    Ok(())
}
