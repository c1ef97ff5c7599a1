// What the words of a turn ask.
use super::names::{minute, occurrence, operation, resource};
use super::sections::joined;
use super::words::cut;
use plan_basics::{ErrCode, OpKey, Watched};
use plan_import::{read_extension, read_occurrence, read_plan};
use plan_records::{Request, What};
use std::alloc::Global;

/// What a turn asks: its minute and its words, before the bar.
pub fn request(alloc: Global, turn: &str) -> Option<Request> {
    let (asked, _) = cut(turn, " | ")?;
    let (at, asked) = cut(asked, " ")?;
    let (word, rest) = cut(asked, " ").unwrap_or((asked, ""));
    Some(Request {
        at: minute(at)?,
        what: what(alloc, word, rest)?,
    })
}

fn what(alloc: Global, word: &str, rest: &str) -> Option<What> {
    match word {
        "tick" => Some(What::Tick),
        "load" | "add" | "extend" => of_text(alloc, word, rest),
        "away" => Some(What::SetAvailable(resource(rest)?, false)),
        "delete" => Some(What::DeleteOccurrence(occurrence(rest)?)),
        "depend" => depend(rest),
        "error" => error(rest),
        _ => of_operation(word, operation(rest)?),
    }
}

// What is asked by a text of records.
fn of_text(alloc: Global, word: &str, rest: &str) -> Option<What> {
    let text = joined(alloc, rest)?;
    match word {
        "add" => add(alloc, text.as_bytes()),
        "extend" => extend(alloc, text.as_bytes()),
        _ => load(alloc, text.as_bytes()),
    }
}

// The plan of a text is loaded.
fn load(alloc: Global, text: &[u8]) -> Option<What> {
    match read_plan(alloc, &mut Watched::new(text)) {
        Ok(draft) => Some(What::Load(draft)),
        Err(_) => None,
    }
}

// The occurrence of a text is added.
fn add(alloc: Global, text: &[u8]) -> Option<What> {
    match read_occurrence(alloc, &mut Watched::new(text)) {
        Ok(addition) => Some(What::AddOccurrence(addition)),
        Err(_) => None,
    }
}

// The plan is extended by the occurrences of a text.
fn extend(alloc: Global, text: &[u8]) -> Option<What> {
    match read_extension(alloc, &mut Watched::new(text)) {
        Ok(extension) => Some(What::Extend(extension)),
        Err(_) => None,
    }
}

// What is asked of one operation.
fn of_operation(word: &str, key: OpKey) -> Option<What> {
    Some(match word {
        "started" => What::Started(key),
        "ended" => What::Ended(key),
        "interrupted" => What::Interrupted(key),
        "hold" => What::Hold(key),
        "rerun" => What::Rerun(key),
        _ => return None,
    })
}

// An operation and its error code.
fn error(rest: &str) -> Option<What> {
    let (name, code) = cut(rest, " ")?;
    Some(What::Error(operation(name)?, ErrCode::from_text(code.as_bytes())?))
}

// An operation and what it depends on.
fn depend(rest: &str) -> Option<What> {
    let (successor, predecessor) = cut(rest, " on ")?;
    Some(What::AddDependency(operation(predecessor)?, operation(successor)?))
}
