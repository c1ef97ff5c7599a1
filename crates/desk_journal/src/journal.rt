// A journal, which takes lines.
ghost use Rattle.std.specs.Prelude.{◌≡◌, false, true, None};
ghost use Rattle.std.specs.Io.KnownBytes.{Appends};
ghost use Rattle.plan_basics.specs.Watched.{AppendsBeginning};
ghost use Rattle.desk_journal.specs.Lines.{entries_of, line_end};

use plan_basics::Watched;
use std::alloc::AllocError;
use std::io::Write;

/// Why a request with a journal has no answer.
#[derive(Clone, Copy)]
pub enum JournalFault {
    /// Memory lacked.
    Memory,
    /// The request's line couldn't be written: nothing was asked.
    Request,
    /// The answer's line couldn't be written.
    Answer,
}

impl From<AllocError> for JournalFault {
    ghost use Rattle.std.specs.Prelude.{◌≡◌};
    ghost use Rattle.desk_journal.specs.declared.journal.JournalFault.{JournalFault};

    ghost from_gives = { λ _ fault. fault ≡ JournalFault.Memory };

    fn from(_: AllocError) -> JournalFault {
        JournalFault::Memory
    }
}

/// A journal, if one is kept.
// That none is kept is a case, so that one function serves with and without one, and each clause speaks of both.
#[derive(Drop)]
pub enum Journal<J> {
    /// None is kept: it takes whatever it is given.
    Absent,
    /// Lines are appended to what this writes to.
    Kept(Watched<J>),
}

impl<J: Write> Journal<J> {
    /// Whether one is kept. Where none is, it takes whatever it is given.
    pub fn is_kept(&self) -> bool
        ensures { result ≡ false → entries_of J.contents self.now ≡ None }
    {
        match self {
            Journal::Absent => false,
            Journal::Kept(_) => true,
        }
    }

    /// Takes lines whole and flushes them, or tells that it can't.
    pub fn enter(&mut self, lines: &[u8]) -> bool
        ensures whole { result ≡ true → Appends (entries_of J.contents self.old) (entries_of J.contents self.new) lines.now }
        ensures beginning { AppendsBeginning (entries_of J.contents self.old) (entries_of J.contents self.new) lines.now }
    {
        match self {
            Journal::Absent => true,
            Journal::Kept(writer) => writer.write_all(lines).is_ok() && writer.flush().is_ok(),
        }
    }

    /// Ends a line that was cut short, as a journal is taken up: what it has so far ends in this byte, if in any. Tells
    /// whether it could.
    pub fn end_line(&mut self, last: Option<u8>) -> bool
        ensures { result ≡ true → Appends (entries_of J.contents self.old) (entries_of J.contents self.new) (line_end last) }
    {
        match last {
            Some(byte) if byte != b'\n' => self.enter(b"\n"),
            _ => self.enter(b""),
        }
    }
}
