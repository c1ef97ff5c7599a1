// The reply to a request that is asked between two lines of a journal.
ghost use Rattle.std.specs.Prelude.{◌≡◌, ◌⊎◌, ◌++◌, ℕ, List, IfErr, IfOk};
ghost use Rattle.std.specs.Io.KnownBytes.{Appends};
ghost use Rattle.desk_journal.specs.Lines.{entries_of};
ghost use Rattle.http_messages.specs.declared.statuses.Status.TheVariants as StatusValue;
ghost use Rattle.tracker_http.specs.Readings.{ReadsFor};
ghost use Rattle.tracker_http.specs.Faulty.{IsReplyTo};
ghost use Rattle.tracker_http.specs.Told.{reply_of};
ghost use Rattle.tracker_http.specs.declared.told.Told.{Told as ToldType};
ghost use Rattle.tracker_http.specs.declared.told.Told.TheVariants as ToldValue;
ghost use Rattle.tracker_http.specs.Continuing.{Continues};
ghost use Rattle.tracker_http.specs.Journalled.{answer_lines, request_lines, AskedBreaksOff, ReadBreaksOff, Takes, Writes};

use super::faulty::reply_to;
use super::journalling::journalled;
use super::reading::{Reading, is_turned_away, read_asked};
use super::told::Told;
use desk_journal::{Journal, JournalFault};
use desk_tables::Desk;
use http_messages::{Asking, Status};
use sqlite::Alter;
use std::alloc::{AllocError, Global};
use std::io::Write;

/// Why an exchange was broken off.
#[derive(Clone, Copy)]
pub enum ServeFault {
    /// Memory lacked.
    Memory,
    /// The reader answered a fault.
    Reader,
    /// The writer answered a fault.
    Writer,
    /// The journal took no line.
    Journal,
}

impl From<AllocError> for ServeFault {
    ghost use Rattle.std.specs.Prelude.{◌≡◌};
    ghost use Rattle.tracker_http.specs.declared.replying.ServeFault.{ServeFault};

    ghost from_gives = { λ _ fault. fault ≡ ServeFault.Memory };

    fn from(_: AllocError) -> ServeFault {
        ServeFault::Memory
    }
}

// Why an exchange is broken off where memory lacked, or the journal took no line.
fn fault_of(fault: JournalFault) -> ServeFault
    ensures { (result ≡ ServeFault.Memory) ⊎ (result ≡ ServeFault.Journal) }
{
    match fault {
        JournalFault::Memory => ServeFault::Memory,
        JournalFault::Request | JournalFault::Answer => ServeFault::Journal,
    }
}

// The reply to a request that is turned away.
fn turned_away(alloc: Global) -> Result<Vec<u8>, ServeFault>
    ensures made { IfOk result (λ reply. reply.items ≡ reply_of (ToldValue.Fault StatusValue.Forbidden)) }
    ensures fault { IfErr result (λ fault. fault ≡ ServeFault.Memory) }
{
    Ok(Told::Fault(Status::Forbidden).reply(alloc)?)
}

// The reply to a request that was read so, and is asked.
fn read_reply<J: Write, S: Alter + Drop>(
    alloc: Global,
    journal: &mut Journal<J>,
    desk: &mut Desk<S>,
    asking: &Asking,
    reading: &Reading,
    ahead: Option<u32>,
) -> Result<Vec<u8>, ServeFault>
    requires reading { ReadsFor asking.now.asked reading.now }
    ensures made { IfOk result (λ reply. (x : ToldType) × Takes S.Store ahead asking.now.asked desk.old x desk.new × IsReplyTo asking.now.asked reading.now x reply.items
        × Appends (entries_of J.contents journal.old) (entries_of J.contents journal.new) (request_lines desk.old.plan reading.now asking.now ++ answer_lines asking.now.asked x)) }
    ensures broken { IfErr result (λ fault. ReadBreaksOff S.Store ahead asking.now reading.now desk.old desk.new (entries_of J.contents journal.old) (entries_of J.contents journal.new)) }
    ensures fault { IfErr result (λ fault. (fault ≡ ServeFault.Memory) ⊎ (fault ≡ ServeFault.Journal)) }
    ensures continues { Continues S.Store desk.old desk.new }
{
    match journalled(alloc, journal, desk, asking, reading, ahead) {
        Ok(told) => Ok(reply_to(alloc, &asking.asked, reading, &told)?),
        Err(fault) => Err(fault_of(fault)),
    }
}

/// The reply to a request that is asked between two lines of the journal, where one is kept, within the clock's guard: its
/// bytes tell what it is told, and what is wrong with an operator's body that is no request (`made`). Where trackers are bound to their names, a report in another's is turned away: the desk
/// isn't asked, and no line is taken. `Memory` for want of memory, `Journal` where the journal took no line: the request
/// may have acted, but never before its line was taken (`broken`).
pub fn asked_reply<J: Write, S: Alter + Drop>(
    alloc: Global,
    journal: &mut Journal<J>,
    desk: &mut Desk<S>,
    asking: &Asking,
    ahead: Option<u32>,
    bound: bool,
) -> Result<Vec<u8>, ServeFault>
    ensures made { IfOk result (λ reply. (lines : List ℕ) × Writes S.Store ahead bound asking.now desk.old reply.items lines desk.new
        × Appends (entries_of J.contents journal.old) (entries_of J.contents journal.new) lines) }
    ensures broken { IfErr result (λ fault. AskedBreaksOff S.Store ahead bound asking.now desk.old desk.new (entries_of J.contents journal.old) (entries_of J.contents journal.new)) }
    ensures fault { IfErr result (λ fault. (fault ≡ ServeFault.Memory) ⊎ (fault ≡ ServeFault.Journal)) }
    ensures continues { Continues S.Store desk.old desk.new }
{
    let Ok(reading) = read_asked(alloc, &asking.asked) else {
        return Err(ServeFault::Memory);
    };
    if is_turned_away(bound, asking, &reading) {
        return turned_away(alloc);
    }
    read_reply(alloc, journal, desk, asking, &reading, ahead)
}
