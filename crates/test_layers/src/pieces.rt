//! Readers that give a plan's text in pieces or fail, and whether texts denote plans.
use super::tables::all_so;
use plan_basics::Watched;
use plan_drafts::PlanContents;
use plan_import::{ImportFault, read_plan};
use std::alloc::Global;
use std::io;
use std::io::Read;

const DAY: &str = "W,CPU1,A,,,,,,,
I,CPU1,1972-01-01T00:00,2071-12-31T23:59,2,0,0,,,
O,DAILY,2024-03-01T22:00,5,2024-03-02T05:00,,,,,
P,DAILY,2024-03-01T22:00,10,CPU1,30,0,0,,
P,DAILY,2024-03-01T22:00,20,CPU1,60,0,0,,
D,DAILY,2024-03-01T22:00,10,DAILY,2024-03-01T22:00,20,,,
";

/// Gives at most `step` bytes a call, and fails at the call `fault`; the calls are counted from 1.
#[derive(Drop)]
struct Pieces<'a> {
    text: &'a [u8],
    step: usize,
    calls: usize,
    fault: usize,
}

impl<'a> Read for Pieces<'a> {
    fn read(&mut self, buf: &mut [u8]) -> io::Result<usize> {
        self.calls = self.calls.saturating_add(1);
        if self.calls == self.fault {
            return Err(io::Error::from(io::ErrorKind::Interrupted));
        }
        let n = self.step.min(buf.len()).min(self.text.len());
        let (now, later) = self.text.split_at(n);
        buf[..n].copy_from_slice(now);
        self.text = later;
        Ok(n)
    }
}

// The day in such pieces.
fn day_in(step: usize, fault: usize) -> Watched<Pieces<'static>> {
    Watched::new(Pieces {
        text: DAY.as_bytes(),
        step,
        calls: 0,
        fault,
    })
}

// Whether a plan has the day's two operations, of which the last takes an hour, and their pair.
fn is_day(contents: &PlanContents) -> bool {
    match contents.operations() {
        [_, (key, row)] => { key.number == 20 && row.duration == 60 && contents.pairs().len() == 1 }
        _ => false,
    }
}

// Whether a reader gives the day, or the fault that it answers.
fn gives_day(alloc: Global, reader: &mut Watched<Pieces<'static>>) -> Result<bool, ImportFault> {
    match read_plan(alloc, reader) {
        Ok(Some(draft)) => Ok(is_day(draft.contents())),
        Ok(None) => Ok(false),
        Err(fault) => Err(fault),
    }
}

// Whether the day is read in pieces of this size.
fn is_read_in(alloc: Global, step: usize) -> bool {
    let mut reader = day_in(step, 0);
    gives_day(alloc, &mut reader) == Ok(true) && !reader.failed()
}

// Whether the fault of the reader's call of this number is answered.
fn fails_at(alloc: Global, call: usize) -> bool {
    let mut reader = day_in(1, call);
    gives_day(alloc, &mut reader) == Err(ImportFault::Reader) && reader.failed()
}

// Whether the day is read behind a fault that the reader answered earlier.
fn is_read_after_a_fault(alloc: Global) -> bool {
    let mut reader = day_in(8192, 1);
    let mut place = [0u8; 4];
    reader.read(&mut place).is_err() && gives_day(alloc, &mut reader) == Ok(true)
}

/// A plan is read in pieces of any size, and behind an earlier fault, which is forgotten.
pub fn pieces_of_any_size(alloc: Global) -> Result<(), &'static str> {
    all_so(&[
        (is_read_in(alloc, 1), "pieces of 1"),
        (is_read_in(alloc, 2), "pieces of 2"),
        (is_read_in(alloc, 7), "pieces of 7"),
        (is_read_in(alloc, 8192), "pieces of 8192"),
        (is_read_after_a_fault(alloc), "the day behind a fault"),
    ])
}

/// A fault of any read is answered.
pub fn each_read_fails_once(alloc: Global) -> Result<(), &'static str> {
    for call in 1..=DAY.len() + 1 {
        if !fails_at(alloc, call) {
            return Err("a read that failed");
        }
    }
    Ok(())
}
