// Desks in want of memory: each turn of a script is tried while all memory is taken, and again each time that a block more is
// given back. It is refused for want of memory, and then done. Two places are side by side: turns are made in want of memory
// at one, and with memory at the other.
use super::FAILED;
use super::deeds::add;
use super::places::Place;
use super::replies::Came;
use super::turns::{Turn, turn_of};
use sqlite::{Alter, Connection, MemStore};
use sqlite_trees::store::Reopen;
use std::alloc::Global;
use test_memory::{MemoryOutcome, SPARES, Sweep, swept};

// After how many refusals at most it is looked at what is shown then.
const PAUSES: [usize; 4] = [1, 64, 512, SPARES];

// Adds what is shown before a turn that is made with memory, and after it; whether it is done.
fn is_shown<S: Alter + Reopen + Drop>(
    alloc: Global,
    place: &mut Place<S>,
    turn: &Turn<'_>,
    texts: &mut Vec<Vec<u8>>,
) -> bool {
    add(texts, place.shown(alloc))
        && place.make(alloc, turn) == Came::Done
        && add(texts, place.shown(alloc))
}

// What comes of a turn in want of memory.
fn tried<S: Alter + Reopen + Drop>(
    alloc: Global,
    place: &mut Place<S>,
    turn: &Turn<'_>,
) -> MemoryOutcome {
    match place.make(alloc, turn) {
        Came::Done => MemoryOutcome::Done,
        Came::WithoutMemory => MemoryOutcome::WithoutMemory,
        _ => MemoryOutcome::Otherwise,
    }
}

// Makes a turn while all memory is taken, and again as it is given back block by block; at most so many times.
fn make_in_want<S: Alter + Reopen + Drop>(
    alloc: Global,
    place: &mut Place<S>,
    turn: &Turn<'_>,
    most: usize,
) -> Sweep {
    swept(alloc, most, || tried(alloc, place, turn))
}

// Whether a turn that was refused for want of memory has left what was there before; or has acted, if it may untold.
fn is_left<S: Alter + Reopen + Drop>(
    alloc: Global,
    place: &mut Place<S>,
    turn: &Turn<'_>,
    before: &[u8],
    after: &[u8],
) -> bool {
    place.shows(alloc, before) || (turn.may_act_untold() && place.shows(alloc, after))
}

// Whether a turn that is made in want of memory is refused, leaves what was there before, and then leaves what is to be there
// after it.
fn is_made_in_want<S: Alter + Reopen + Drop>(
    alloc: Global,
    place: &mut Place<S>,
    turn: &Turn<'_>,
    before: &[u8],
    after: &[u8],
) -> bool {
    let mut refused = 0u32;
    for most in PAUSES {
        let sweep = make_in_want(alloc, place, turn, most);
        refused = refused.saturating_add(sweep.refused);
        match sweep.last {
            MemoryOutcome::Done => {
                return (refused > 0 || !turn.wants_memory()) && place.shows(alloc, after);
            }
            MemoryOutcome::WithoutMemory if is_left(alloc, place, turn, before, after) => {}
            _ => return false,
        }
    }
    false
}

// Whether a turn changes the same at both places, with memory and in want of it.
fn is_made<S: Alter + Reopen + Drop>(
    alloc: Global,
    poor: &mut Place<S>,
    rich: &mut Place<S>,
    turn: &Turn<'_>,
) -> bool {
    let mut texts = Vec::new(alloc);
    if !is_shown(alloc, rich, turn, &mut texts) {
        return false;
    }
    match texts.as_slice() {
        [before, after] => is_made_in_want(alloc, poor, turn, before, after),
        _ => false,
    }
}

// Whether the turn of a line is made at both places.
fn is_line_made<S: Alter + Reopen + Drop>(
    alloc: Global,
    poor: &mut Place<S>,
    rich: &mut Place<S>,
    line: &str,
) -> bool {
    if let Some(line) = line.strip_prefix("+ ") {
        return poor.make_line(alloc, line) == Came::Done
            && rich.make_line(alloc, line) == Came::Done;
    }
    match turn_of(alloc, line) {
        Some(turn) => is_made(alloc, poor, rich, &turn),
        None => false,
    }
}

// Makes the turns of a script at both places; or the one that goes otherwise.
fn walk<'a, S: Alter + Reopen + Drop>(
    alloc: Global,
    poor: &mut Place<S>,
    rich: &mut Place<S>,
    script: &'a str,
) -> Result<(), &'a str> {
    for line in script.lines() {
        if !is_line_made(alloc, poor, rich, line) {
            return Err(line);
        }
    }
    Ok(())
}

// Plays a script over a connection and one more.
fn played_beside(
    alloc: Global,
    poor: Connection<MemStore>,
    script: &'static str,
) -> Result<(), &'static str> {
    match Connection::open_in_memory(alloc) {
        Ok(rich) => walk(
            alloc,
            &mut Place::over(poor),
            &mut Place::over(rich),
            script,
        ),
        Err(_) => Err(FAILED),
    }
}

/// Plays a script over two databases in memory; or the turn that goes otherwise.
pub fn played(alloc: Global, script: &'static str) -> Result<(), &'static str> {
    match Connection::open_in_memory(alloc) {
        Ok(poor) => played_beside(alloc, poor, script),
        Err(_) => Err(FAILED),
    }
}

/// Plays scripts, between which an empty line stands.
pub fn each_played(alloc: Global, scripts: &'static str) -> Result<(), &'static str> {
    for script in scripts.split("\n\n") {
        played(alloc, script)?;
    }
    Ok(())
}
