// One exchange: a request is read, the desk answers it, the reply is written.
ghost use Rattle.std.specs.Prelude.{◌≡◌, ◌↔◌, ◌⊎◌, Err, true, false, IfOk, IfErr, OnOk, OnErr};
ghost use Rattle.std.specs.Io.KnownBytes.{Appends};
ghost use Rattle.plan_basics.specs.Watched.{inner_of, failed_of, AppendsBeginning};
ghost use Rattle.tracker_http.specs.Continuing.{Continues, ContinuesTelling};
ghost use Rattle.tracker_http.specs.Exchange.{seen, IsTold, Ends};

use super::asking::tell;
use super::told::Told;
use desk_tables::Desk;
use http_messages::{ExchangeFault, read_exchange};
use plan_basics::Watched;
use request_json::WireFault;
use sqlite::Alter;
use std::alloc::Global;
use std::io::{Read, Write};

// Reads a request and asks the desk, or tells the first test that the request fails.
fn told_to<R: Read, S: Alter + Drop>(
    alloc: Global,
    reader: &mut Watched<R>,
    desk: &mut Desk<S>,
) -> Result<Told, WireFault>
    ensures told { IfOk result (λ told. IsTold (R.remaining (inner_of reader.old)) (seen desk.old) told (seen desk.new)) }
    ensures reader_fault { (result ≡ Err WireFault.Reader) ↔ (failed_of reader.new ≡ true) }
    ensures others { IfErr result (λ fault. (fault ≡ WireFault.Reader) ⊎ (fault ≡ WireFault.Memory)) }
    ensures continues { ContinuesTelling S.Store result desk.old desk.new }
    ensures unchanged { OnErr result (desk.new ≡ desk.old) }
{
    match read_exchange(alloc, reader) {
        Ok(Ok(asked)) => tell(alloc, desk, &asked),
        Ok(Err(test)) => Ok(Told::Fault(test.status())),
        Err(ExchangeFault::Memory) => Err(WireFault::Memory),
        Err(ExchangeFault::Reader) => Err(WireFault::Reader),
    }
}

/// Writes a reply whole, and flushes it. `Writer` where the writer answered a fault: a beginning of it is written.
pub fn send<W: Write>(writer: &mut Watched<W>, reply: &[u8]) -> Result<(), WireFault>
    requires fresh { failed_of writer.old ≡ false }
    ensures whole { OnOk result (Appends (W.contents (inner_of writer.old)) (W.contents (inner_of writer.new)) reply.now) }
    ensures beginning { AppendsBeginning (W.contents (inner_of writer.old)) (W.contents (inner_of writer.new)) reply.now }
    ensures ok { OnOk result (failed_of writer.new ≡ false) }
    ensures err { OnErr result (failed_of writer.new ≡ true) }
    ensures fault { IfErr result (λ fault. fault ≡ WireFault.Writer) }
{
    if writer.write_all(reply).is_err() || writer.flush().is_err() {
        return Err(WireFault::Writer);
    }
    Ok(())
}

/// Serves one request: it is read, in whatever pieces it comes, the desk answers it, and the reply is written and
/// flushed. No more is read than the request's form needs. The desk is asked once the request is whole, and before any
/// of the reply is written. Faults of earlier calls of the reader and the writer are forgotten.
///
/// `Reader` where the reader answered a fault: nothing is written, and nothing changes. `Writer` where the writer did:
/// a beginning of the reply is written, and the request acted as the reply says. `Memory` for want of memory: nothing
/// is written, and the request may have acted, which a tracker learns by repeating it.
///
/// Of each reader, a socket too, the reply and the desk after it are those of some request, or of some test that it fails;
/// where the bytes are known, of what they say (`ends`). Where the tables held what the desk holds and the store is clean
/// afterwards, they hold what the desk holds then (`continues`); and where the disk returns what was written, a store that was
/// open is, unless the desk answered `Memory` or `Store` (`ends`).
// Want of memory ends it without a reply, so that no memory is kept aside for replies.
pub fn serve_one<R: Read, W: Write, S: Alter + Drop>(
    alloc: Global,
    reader: &mut Watched<R>,
    writer: &mut Watched<W>,
    desk: &mut Desk<S>,
) -> Result<(), WireFault>
    ensures ends { Ends S.Store result (R.remaining (inner_of reader.old)) desk.old desk.new (W.contents (inner_of writer.old)) (W.contents (inner_of writer.new)) }
    ensures continues { Continues S.Store desk.old desk.new }
    ensures reader_fault { (result ≡ Err WireFault.Reader) ↔ (failed_of reader.new ≡ true) }
    ensures writer_fault { (result ≡ Err WireFault.Writer) ↔ (failed_of writer.new ≡ true) }
{
    writer.clear();
    let told = told_to(alloc, reader, desk)?;
    let reply = told.reply(alloc)?;
    send(writer, &reply)
}
