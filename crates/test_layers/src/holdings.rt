//! Who holds a special resource, and what is ready, where there is memory for it.
use super::tables::all_so;
use plan_basics::{Attr, OpKey, Refusal, ResName, WsName};
use ready_list::{ReadyEntry, ReadyKey, ReadyList};
use special_resources::{Holdings, Mode, Need};
use std::alloc::Global;

// An operation that shares a file.
fn need() -> Option<Need> {
    Some(Need {
        name: ResName::from_text(b"CUSTFILE")?,
        mode: Mode::Shared,
        amount: 1,
        keep: false,
    })
}

fn operation() -> Option<OpKey> {
    OpKey::from_text(b"PAYROLL/2024-03-01T22:00/010")
}

// Whether an operation takes what it needs, once there is room, and the room that memory can't hold is refused.
fn takes(holdings: &mut Holdings, need: &Need, operation: &OpKey) -> bool {
    if holdings.reserve(1).is_err() {
        return false;
    }
    holdings.take(need, *operation);
    holdings.reserve(usize::MAX) == Err(Refusal::Memory)
        && holdings.claim_of(&need.name, *operation) == Some(need.claim())
}

// Whether a copy holds the same.
fn has_a_copy(holdings: &Holdings, need: &Need, operation: &OpKey) -> bool {
    match holdings.try_clone() {
        Ok(copy) => copy.claim_of(&need.name, *operation) == Some(need.claim()),
        Err(_) => false,
    }
}

// Whether an operation holds what it needs, and in a copy too.
fn holds(alloc: Global) -> Option<bool> {
    let (need, operation) = (need()?, operation()?);
    let mut holdings = Holdings::new(alloc);
    Some(takes(&mut holdings, &need, &operation) && has_a_copy(&holdings, &need, &operation))
}

// The operation on an automatic workstation.
fn entry() -> Option<ReadyEntry> {
    Some(ReadyEntry {
        key: ReadyKey {
            latest: 189,
            priority: 5,
            duration: 30,
            op: operation()?,
        },
        ws: WsName::from_text(b"CPU1")?,
        attr: Attr::Automatic,
        site: 0,
        place: 0,
    })
}

// Whether a list has this entry alone.
fn has_just(list: &ReadyList, entry: &ReadyEntry) -> bool {
    match list.entries() {
        [only] => only.key == entry.key,
        _ => false,
    }
}

// Whether an entry is put in, once there is room.
fn puts(list: &mut ReadyList, entry: &ReadyEntry) -> bool {
    if list.reserve(1).is_err() {
        return false;
    }
    list.insert(*entry);
    has_just(list, entry)
}

// Whether a list is built of an entry.
fn builds(alloc: Global, entry: &ReadyEntry) -> bool {
    match Vec::from_array(alloc, [*entry]) {
        Ok(entries) => match ReadyList::build(entries) {
            Ok(list) => has_just(&list, entry),
            Err(_) => false,
        },
        Err(_) => false,
    }
}

// Whether what is ready is listed, one by one and at once.
fn lists(alloc: Global) -> Option<bool> {
    let entry = entry()?;
    Some(puts(&mut ReadyList::new(alloc), &entry) && builds(alloc, &entry))
}

/// What is held, and what is ready.
pub fn what_is_held_and_ready(alloc: Global) -> Result<(), &'static str> {
    all_so(&[
        (holds(alloc) == Some(true), "what is held"),
        (lists(alloc) == Some(true), "what is ready"),
    ])
}
