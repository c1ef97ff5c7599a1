// The words of the member `do`, each of which asks for something else.
use std::alloc::{AllocError, Global};

/// Nothing but what time alone brings.
pub const TICK: &str = "tick";

/// A tracker's report of a start.
pub const STARTED: &str = "started";

/// A tracker's report of an end.
pub const ENDED: &str = "ended";

/// A tracker's report of an error.
pub const ERROR: &str = "error";

/// A tracker's report of an interruption.
pub const INTERRUPTED: &str = "interrupted";

/// A tracker's report that it doesn't know what became of an operation.
pub const UNKNOWN: &str = "unknown";

/// That an operation doesn't start.
pub const HOLD: &str = "hold";

/// That it may start again.
pub const RELEASE: &str = "release";

/// That an operation is a no-operation.
pub const NOP: &str = "nop";

/// That it is carried out again.
pub const UNNOP: &str = "unnop";

/// That an operation is run again.
pub const RERUN: &str = "rerun";

/// That an operation is complete.
pub const COMPLETE: &str = "complete";

/// A plan's text.
pub const LOAD: &str = "load";

/// An occurrence's text, to be added.
pub const ADD: &str = "add";

/// A text by which the plan is extended.
pub const EXTEND: &str = "extend";

/// That an occurrence is deleted.
pub const DELETE: &str = "delete";

/// That one operation comes after another.
pub const DEPEND: &str = "depend";

/// Whether a special resource is available.
pub const AVAILABLE: &str = "available";

/// When a workstation is open.
pub const INTERVALS: &str = "intervals";

// All of them.
const ALL: [&str; 19] = [
    TICK,
    STARTED,
    ENDED,
    ERROR,
    INTERRUPTED,
    UNKNOWN,
    HOLD,
    RELEASE,
    NOP,
    UNNOP,
    RERUN,
    COMPLETE,
    LOAD,
    ADD,
    EXTEND,
    DELETE,
    DEPEND,
    AVAILABLE,
    INTERVALS,
];

// Those of a tracker's report.
const OF_REPORTS: [&str; 5] = [STARTED, ENDED, ERROR, INTERRUPTED, UNKNOWN];

// These in words, the last behind `or`.
fn in_words(alloc: Global, verbs: &[&'static str]) -> Result<String, AllocError> {
    let mut text = String::new(alloc);
    for place in 0..verbs.len() {
        if place > 0 {
            text.push_str(if place + 1 < verbs.len() {
                ", "
            } else {
                " or "
            })?;
        }
        text.push_str(verbs[place])?;
    }
    Ok(text)
}

/// All of them in words.
pub(crate) fn all_verbs(alloc: Global) -> Result<String, AllocError> {
    in_words(alloc, &ALL)
}

/// Those of a report in words.
pub(crate) fn report_verbs(alloc: Global) -> Result<String, AllocError> {
    in_words(alloc, &OF_REPORTS)
}
