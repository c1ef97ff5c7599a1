// What comes of a turn, and what is replied, held against what a turn says.
use plan_basics::{OpKey, Refusal};
use plan_records::Reply;

/// What comes of a turn.
#[derive(Clone, Copy, PartialEq)]
pub enum Came {
    /// What its line says.
    Done,
    /// It is refused for want of memory.
    WithoutMemory,
    /// The store fails in it.
    Store,
    /// The store failed before, and the desk is to be opened again.
    Reopen,
    /// The tables are damaged.
    Damaged,
    /// The desk refuses otherwise what isn't a report.
    Refused,
    /// Anything else.
    Otherwise,
}

/// What comes of a turn for which a desk isn't made or opened.
pub fn came_of(refusal: Refusal) -> Came {
    if refusal == Refusal::Memory {
        Came::WithoutMemory
    } else if refusal == Refusal::Store {
        Came::Store
    } else if refusal == Refusal::Damaged {
        Came::Damaged
    } else {
        Came::Otherwise
    }
}

// Whether these are the operations of a list.
fn are_keys(named: &[OpKey], keys: &str) -> bool {
    for (key, text) in named.iter().zip(keys.split_whitespace()) {
        match OpKey::from_text(text.as_bytes()) {
            Some(told) if told == *key => {}
            _ => return false,
        }
    }
    named.len() == keys.split_whitespace().count()
}

// Whether a turn says that these operations are named.
fn are_named(named: &[OpKey], told: &str) -> bool {
    match told.strip_prefix("names") {
        Some(keys) => are_keys(named, keys),
        None => false,
    }
}

/// What comes of a turn whose reply is this one.
pub fn outcome(reply: &Reply, told: &str) -> Came {
    match reply {
        Reply::Refused(Refusal::Memory) => Came::WithoutMemory,
        Reply::Refused(refusal) if told.strip_prefix("refused ") == Some(refusal.name()) => {
            Came::Done
        }
        Reply::Accepted { named } if are_named(named, told) => Came::Done,
        _ => Came::Otherwise,
    }
}
