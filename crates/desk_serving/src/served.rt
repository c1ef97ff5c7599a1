// One exchange: a request is read, the desk is asked between two lines of its journal or looked at, the reply is written.
ghost use Rattle.std.specs.Prelude.{◌≡◌, ◌↔◌, List, ℕ, Err, false, true, IfErr, IfOk, OnErr, OnOk};
ghost use Rattle.std.specs.Io.KnownBytes.{Appends};
ghost use Rattle.plan_basics.specs.Watched.{inner_of, failed_of, AppendsBeginning};
ghost use Rattle.desk_journal.specs.Lines.{entries_of};
ghost use Rattle.tracker_http.specs.Continuing.{Continues};
ghost use Rattle.desk_serving.specs.Served.{Ends, EndsForeign, IsForeignInput, Serves, Stands, Unanswered};

use super::showing::look_shown;
use super::terms::Terms;
use desk_journal::Journal;
use http_messages::{ExchangeFault, Wanted, read_wanted};
use plan_basics::Watched;
use sqlite::Alter;
use std::alloc::Global;
use std::io::{Read, Write};
use tracker_http::{Desk, ServeFault, Told, asked_reply, send};

/// The most bytes of a body.
pub const MOST_SERVED_BYTES: usize = 16_777_216;

// Reads a request, and makes its reply.
fn wanted_reply<R: Read, J: Write, S: Alter + Drop>(
    alloc: Global,
    reader: &mut Watched<R>,
    journal: &mut Journal<J>,
    desk: &mut Desk<S>,
    terms: &Terms,
) -> Result<Vec<u8>, ServeFault>
    ensures made { IfOk result (λ reply. (lines : List ℕ) × Serves S.Store terms.now (R.remaining (inner_of reader.old)) desk.old reply.items lines desk.new
        × Appends (entries_of J.contents journal.old) (entries_of J.contents journal.new) lines) }
    ensures broken { IfErr result (λ fault. Unanswered S.Store terms.now (R.remaining (inner_of reader.old)) fault desk.old desk.new (entries_of J.contents journal.old) (entries_of J.contents journal.new)) }
    ensures reader_fault { (result ≡ Err ServeFault.Reader) ↔ (failed_of reader.new ≡ true) }
    ensures continues { Continues S.Store desk.old desk.new }
{
    match read_wanted(alloc, reader, MOST_SERVED_BYTES) {
        Ok(Ok(Wanted::Asked(asking))) => {
            asked_reply(alloc, journal, desk, &asking, terms.ahead, terms.bound)
        }
        Ok(Ok(Wanted::Look(look))) => Ok(look_shown(alloc, desk, &look, terms)?),
        Ok(Err(test)) => Ok(Told::Fault(test.status()).reply(alloc)?),
        Err(ExchangeFault::Memory) => Err(ServeFault::Memory),
        Err(ExchangeFault::Reader) => Err(ServeFault::Reader),
    }
}

// Writes a reply whole, as `send` does.
fn sent<W: Write>(writer: &mut Watched<W>, reply: &[u8]) -> Result<(), ServeFault>
    requires fresh { failed_of writer.old ≡ false }
    ensures whole { OnOk result (Appends (W.contents (inner_of writer.old)) (W.contents (inner_of writer.new)) reply.now) }
    ensures beginning { AppendsBeginning (W.contents (inner_of writer.old)) (W.contents (inner_of writer.new)) reply.now }
    ensures ok { OnOk result (failed_of writer.new ≡ false) }
    ensures err { OnErr result (failed_of writer.new ≡ true) }
    ensures fault { IfErr result (λ fault. fault ≡ ServeFault.Writer) }
{
    match send(writer, reply) {
        Ok(()) => Ok(()),
        Err(_) => Err(ServeFault::Writer),
    }
}

/// Serves one request by these terms: as `serve_one` of `tracker_http`, but that it may look at something too, by which nothing
/// changes; that a report or an operator's request is asked within the clock's guard, and between two lines of the journal,
/// where one is kept; that a request is turned away which is foreign, or a report in another's name where trackers are bound to
/// theirs: the desk isn't asked, and no line is taken (`foreign`); and that a body may have `MOST_SERVED_BYTES`. Faults of earlier calls of the reader and the writer are forgotten.
///
/// `Reader` where the reader answered a fault: nothing is written, no line is taken, and nothing changes. `Writer` where the
/// writer did: a beginning of the reply is written, and the request acted as the reply says. `Memory` for want of memory, and
/// `Journal` where the journal took no line: nothing is written, and the request may have acted, but never before its line
/// was taken (`ends`, `stands`).
///
/// What the tables hold, and that a store stays open, is as of `serve_one`.
pub fn serve_wanted<R: Read, W: Write, J: Write, S: Alter + Drop>(
    alloc: Global,
    reader: &mut Watched<R>,
    writer: &mut Watched<W>,
    journal: &mut Journal<J>,
    desk: &mut Desk<S>,
    terms: &Terms,
) -> Result<(), ServeFault>
    ensures ends { Ends S.Store terms.now result (R.remaining (inner_of reader.old)) desk.old desk.new (W.contents (inner_of writer.old), W.contents (inner_of writer.new)) (entries_of J.contents journal.old, entries_of J.contents journal.new) }
    ensures stands { Stands (R.remaining (inner_of reader.old)) desk.old desk.new (entries_of J.contents journal.old) (entries_of J.contents journal.new) }
    ensures foreign { IsForeignInput (R.remaining (inner_of reader.old)) → EndsForeign result desk.old desk.new (W.contents (inner_of writer.old), W.contents (inner_of writer.new)) (entries_of J.contents journal.old, entries_of J.contents journal.new) }
    ensures continues { Continues S.Store desk.old desk.new }
    ensures reader_fault { (result ≡ Err ServeFault.Reader) ↔ (failed_of reader.new ≡ true) }
    ensures writer_fault { (result ≡ Err ServeFault.Writer) ↔ (failed_of writer.new ≡ true) }
{
    writer.clear();
    let reply = wanted_reply(alloc, reader, journal, desk, terms)?;
    sent(writer, &reply)
}
