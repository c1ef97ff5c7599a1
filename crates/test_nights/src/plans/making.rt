// What is made of texts and of records, in want of memory.
use crate::sections::joined;
use plan_basics::{Refusal, Watched};
use plan_denotation::{Build, Record};
use plan_drafts::{Addition, Extension, PlanDraft};
use plan_import::{ImportFault, read_extension, read_occurrence, read_plan};
use std::alloc::{AllocError, Global};
use std::array;
use test_memory::{MemoryOutcome, SPARES, swept};

/// Parts, and what is made of their text, or of its records.
const MADE: &str = "plan STATIONS RUNS PRINTING CHAIN LAST FILE KEEPS
occurrence BILLS BILLS_LAST
extension BILLS BILLS_LAST
draft STATIONS RUNS PRINTING CHAIN LAST FILE KEEPS
addition BILLS BILLS_LAST
extending BILLS BILLS_LAST";

// What comes of an import that has to denote something.
fn imported<T: Drop>(read: Result<Option<T>, ImportFault>) -> MemoryOutcome {
    match read {
        Ok(Some(_)) => MemoryOutcome::Done,
        Err(ImportFault::Memory) => MemoryOutcome::WithoutMemory,
        _ => MemoryOutcome::Otherwise,
    }
}

// What comes of reading a text.
fn reading(alloc: Global, what: &str, text: &[u8]) -> MemoryOutcome {
    let mut reader = Watched::new(text);
    match what {
        "plan" => imported(read_plan(alloc, &mut reader)),
        "occurrence" => imported(read_occurrence(alloc, &mut reader)),
        _ => imported(read_extension(alloc, &mut reader)),
    }
}

// What comes of building of records what they have to denote.
fn built<T: Drop>(built: Result<Option<T>, Refusal>) -> MemoryOutcome {
    match built {
        Ok(Some(_)) => MemoryOutcome::Done,
        Err(Refusal::Memory) => MemoryOutcome::WithoutMemory,
        _ => MemoryOutcome::Otherwise,
    }
}

// The fields of a line without quotes.
fn record(alloc: Global, line: &str) -> Result<Record, AllocError> {
    array::try_from_fn(|place| line
        .split(',')
        .nth(place)
        .unwrap_or("")
        .as_bytes()
        .to_vec(alloc))
}

// The records of a text.
fn records(alloc: Global, text: &str) -> Result<Vec<Record>, AllocError> {
    let mut all = Vec::new(alloc);
    for line in text.lines() {
        all.push(record(alloc, line)?)?;
    }
    Ok(all)
}

// What comes of building of records.
fn building(what: &str, records: Vec<Record>) -> MemoryOutcome {
    match what {
        "draft" => built(PlanDraft::build(records)),
        "addition" => built(Addition::build(records)),
        _ => built(Extension::build(records)),
    }
}

// What comes of making something of a text.
fn making(alloc: Global, what: &str, text: &str) -> MemoryOutcome {
    match what {
        "plan" | "occurrence" | "extension" => reading(alloc, what, text.as_bytes()),
        _ => match records(alloc, text) {
            Ok(records) => building(what, records),
            Err(_) => MemoryOutcome::WithoutMemory,
        },
    }
}

// Whether what a line says is refused for want of memory, growth by growth, and made in the end.
fn is_made_at_last(alloc: Global, line: &str) -> Option<bool> {
    let (what, parts) = line.split_once(' ')?;
    let text = joined(alloc, parts)?;
    let sweep = swept(alloc, SPARES, || making(alloc, what, text.as_str()));
    Some(sweep.is_done_after(5))
}

/// Imports and what is built of records are refused for want of memory as long as there is too little, and then made: a plan, an
/// occurrence, and what a plan is extended by.
pub fn all_is_made_at_last(alloc: Global) -> Result<(), &'static str> {
    for line in MADE.lines() {
        if is_made_at_last(alloc, line) != Some(true) {
            return Err(line);
        }
    }
    Ok(())
}
