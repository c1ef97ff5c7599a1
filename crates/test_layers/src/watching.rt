//! Readers and writers that fail, and what is remembered of it.
ghost use Rattle.std.specs.Prelude.{◌≤◌, IfOk};

use super::tables::all_so;
use plan_basics::Watched;
use std::io;
use std::io::{Read, Write};

// Gives or takes two bytes a call, and is interrupted at the call `fault`; the calls are counted from 1.
#[derive(Drop)]
struct Faulty {
    calls: u8,
    fault: u8,
}

impl Faulty {
    // One more call, with so much room.
    fn count(&mut self, room: usize) -> io::Result<usize>
        ensures { IfOk result (λ n. n ≤ room) }
    {
        self.calls = self.calls.saturating_add(1);
        if self.calls == self.fault {
            return Err(io::Error::from(io::ErrorKind::Interrupted));
        }
        Ok(room.min(2))
    }
}

impl Read for Faulty {
    fn read(&mut self, buf: &mut [u8]) -> io::Result<usize> {
        self.count(buf.len())
    }
}

impl Write for Faulty {
    fn write(&mut self, buf: &[u8]) -> io::Result<usize> {
        self.count(buf.len())
    }

    fn flush(&mut self) -> io::Result<()> {
        self.count(0)?;
        Ok(())
    }
}

// Whether so many bytes are read, and whether a fault is remembered then.
fn reads<R: Read>(
    reader: &mut Watched<R>,
    bytes: &mut [u8],
    is_read: bool,
    is_remembered: bool,
) -> bool {
    reader.read_exact(bytes).is_ok() == is_read && reader.failed() == is_remembered
}

// A read that fails is remembered.
fn a_read_that_fails_is_remembered() -> bool {
    let mut reader = Watched::new(Faulty { calls: 0, fault: 2 });
    let fails = reads(&mut reader, &mut [0; 5], false, true);
    reader.clear();
    let reads = reads(&mut reader, &mut [0; 5], true, false);
    fails && reads && reader.into_inner().calls == 5
}

// Whether bytes are written, and whether a fault is remembered then.
fn writes<W: Write>(
    writer: &mut Watched<W>,
    bytes: &[u8],
    is_written: bool,
    is_remembered: bool,
) -> bool {
    writer.write_all(bytes).is_ok() == is_written && writer.failed() == is_remembered
}

// Whether a flush passes, and whether a fault is remembered then.
fn flushes<W: Write>(writer: &mut Watched<W>, is_flushed: bool, is_remembered: bool) -> bool {
    writer.flush().is_ok() == is_flushed && writer.failed() == is_remembered
}

// A write that fails is remembered.
fn a_write_that_fails_is_remembered() -> bool {
    let mut writer = Watched::new(Faulty { calls: 0, fault: 3 });
    let fails = writes(&mut writer, b"at most four", false, true);
    writer.clear();
    let writes = writes(&mut writer, b"all", true, false) && flushes(&mut writer, true, false);
    fails && writes && writer.into_inner().calls == 6
}

// A flush is passed on and its fault remembered.
fn a_flush_is_passed_on_and_its_fault_remembered() -> bool {
    let mut writer = Watched::new(Faulty { calls: 0, fault: 2 });
    let flushes = flushes(&mut writer, true, false) && flushes(&mut writer, false, true);
    flushes && writer.into_inner().calls == 2
}

// An end is no fault.
fn an_end_is_no_fault() -> bool {
    reads(&mut Watched::new(&b"ab"[..]), &mut [0; 3], false, false)
}

// A full writer is a fault.
fn a_full_writer_is_a_fault() -> bool {
    let mut room = [0; 3];
    writes(&mut Watched::new(&mut room[..]), b"abcd", false, true)
}

/// A read, a write and a flush that fail are remembered until that is cleared, and none is tried again; an end is no fault.
pub fn faults_are_remembered() -> Result<(), &'static str> {
    all_so(&[
        (a_read_that_fails_is_remembered(), "a read"),
        (a_write_that_fails_is_remembered(), "a write"),
        (a_flush_is_passed_on_and_its_fault_remembered(), "a flush"),
        (an_end_is_no_fault(), "an end"),
        (a_full_writer_is_a_fault(), "a full writer"),
    ])
}
