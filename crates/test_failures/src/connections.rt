// Connections that fail: the start of the night, cut after each byte, or to be told where the writer fails at each call; and a
// report whose writer fails.
use super::benches::{Bench, WireFault, is_cut, served};
use plan_basics::Watched;
use sqlite::Alter;
use std::alloc::Global;
use test_wires::{After, Paper, Pieces, START, accepted, fault, is_written};

/// What fails.
#[derive(Clone, Copy)]
pub enum Failing {
    /// A reader, behind each beginning of the start.
    Reader,
    /// A writer, in each call by which the start's reply is written.
    Writer,
    /// A writer, after twenty bytes of a report.
    Report,
}

// A front of which a byte is read a call, and what the reader answers behind it.
fn byte_by_byte(front: &str, after: After) -> Watched<Pieces<'_>> {
    let mut pieces = Pieces::new(front);
    pieces.most = 1;
    pieces.after = after;
    Watched::new(pieces)
}

// Whether a reader that fails behind a front is told, and nothing is written.
fn is_broken_off<S: Alter + Drop>(alloc: Global, bench: &mut Bench<S>, front: &str) -> bool {
    let mut room = [0; 512];
    let mut reader = byte_by_byte(front, After::Fault);
    let mut writer = Watched::new(&mut room[..]);
    let ended = served(alloc, bench, &mut reader, &mut writer);
    matches!(ended, Err(WireFault::Reader)) && is_written(&room, "")
}

// Whether a front gets this reply where the input ends behind it, after which nothing is read.
fn is_replied<S: Alter + Drop>(
    alloc: Global,
    bench: &mut Bench<S>,
    front: &str,
    reply: &str,
) -> bool {
    let mut room = [0; 512];
    let mut reader = byte_by_byte(front, After::End);
    let mut writer = Watched::new(&mut room[..]);
    let ended = served(alloc, bench, &mut reader, &mut writer);
    ended.is_ok()
        && is_written(&room, reply)
        && reader.into_inner().reads == front.len().saturating_add(1)
}

// Whether each beginning of the start but the whole is told as no request, and a reader that fails behind it as that.
fn is_cut_at_each_byte<S: Alter + Drop>(alloc: Global, bench: &mut Bench<S>) -> Option<bool> {
    let report = START.request(alloc)?;
    let reply = fault(alloc, "400 Bad Request", "")?;
    for end in 0..report.len() {
        let front = report.get(..end)?;
        if !is_broken_off(alloc, bench, front) || !is_replied(alloc, bench, front, &reply) {
            return Some(false);
        }
    }
    Some(true)
}

// Whether the start's reply is begun where the writer fails after so many calls, and whole where only its flush does.
fn is_begun<S: Alter + Drop>(alloc: Global, bench: &mut Bench<S>, calls: u32) -> Option<bool> {
    let input = START.request(alloc)?;
    let reply = accepted(alloc)?;
    let mut reader = Watched::new(Pieces::new(&input));
    let mut writer = Watched::new(Paper::new(alloc, calls));
    let ended = served(alloc, bench, &mut reader, &mut writer);
    let written = writer.into_inner().bytes;
    Some(
        matches!(ended, Err(WireFault::Writer))
            && reply.as_bytes().starts_with(&written)
            && (written.len() == reply.len()) == (calls >= 7),
    )
}

// Whether a writer that fails is told so at each of its calls.
fn is_begun_at_each_call<S: Alter + Drop>(alloc: Global, bench: &mut Bench<S>) -> bool {
    for calls in 0..8 {
        if is_begun(alloc, bench, calls) != Some(true) {
            return false;
        }
    }
    true
}

/// Whether what fails at a desk is told.
pub fn is_told<S: Alter + Drop>(alloc: Global, bench: &mut Bench<S>, failing: Failing) -> bool {
    match failing {
        Failing::Reader => is_cut_at_each_byte(alloc, bench) == Some(true),
        Failing::Writer => is_begun_at_each_call(alloc, bench),
        Failing::Report => is_cut(alloc, bench, b"READY CPU1 AT 2024-0"),
    }
}
