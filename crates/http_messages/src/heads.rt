// The head of a request, read over a buffer of fixed room.
ghost use Rattle.std.specs.Prelude.{◌≡◌, false, true, OnOk, OnErr, IfOk, length};
ghost use Rattle.plan_basics.specs.Watched.{inner_of, failed_of};
ghost use Rattle.http_messages.specs.declared.asking.TheConstants.{MOST_HEAD_BYTES, MOST_FIELDS};
ghost use Rattle.http_messages.specs.Heads.{FindsHead};

use crate::asking::ExchangeFault;
use crate::reading::read_on;
use httparse::Status;
use httparse::spans::{HeaderSpan, RequestSpans, parse_request};
use plan_basics::Watched;
use std::io::Read;

/// Reads until a head is whole, or can't become one. Nothing is read after that. With the head comes how many bytes were read.
pub(crate) fn read_head<R: Read>(
    reader: &mut Watched<R>,
    buffer: &mut [u8],
    headers: &mut [HeaderSpan],
) -> Result<Option<(RequestSpans, usize)>, ExchangeFault>
    requires fresh { failed_of reader.old ≡ false }
    requires room { length buffer.old ≡ MOST_HEAD_BYTES }
    requires fields { length headers.old ≡ MOST_FIELDS }
    ensures head { IfOk result (FindsHead (R.remaining (inner_of reader.old)) (R.remaining (inner_of reader.new)) buffer.new headers.new) }
    ensures ok { OnOk result (failed_of reader.new ≡ false) }
    ensures err { OnErr result (failed_of reader.new ≡ true) }
    ensures reader_fault { OnErr result (result ≡ Err ExchangeFault.Reader) }
{
    let mut filled = 0;
    loop {
        match parse_request(&buffer[..filled], headers) {
            Ok(Status::Complete(spans)) => return Ok(Some((spans, filled))),
            Ok(Status::Partial) => {}
            Err(_) => return Ok(None),
        }
        if filled == buffer.len() {
            return Ok(None);
        }
        let now = read_on(reader, buffer, filled)?;
        if now == filled {
            return Ok(None);
        }
        filled = now;
    }
}
