// Reading on into a buffer.
ghost use Rattle.std.specs.Prelude.{◌≡◌, ◌<◌, ◌≤◌, false, true, List, ℕ, Option, take, length, OnOk, OnErr, IfOk};
ghost use Rattle.std.specs.Io.KnownBytes.{Consumes, IsAtEnd};
ghost use Rattle.plan_basics.specs.Watched.{inner_of, failed_of};

use crate::asking::ExchangeFault;
use plan_basics::Watched;
use std::io::Read;

/// Reads once into a buffer whose first bytes are filled, and tells how many are then: no more at the end of the input.
pub(crate) fn read_on<R: Read>(
    reader: &mut Watched<R>,
    buffer: &mut [u8],
    filled: usize,
) -> Result<usize, ExchangeFault>
    requires within { filled ≤ length buffer.old }
    requires fresh { failed_of reader.old ≡ false }
    ensures within { IfOk result (λ n. (filled ≤ n) × (n ≤ length buffer.new)) }
    ensures kept { OnOk result (take filled buffer.new ≡ take filled buffer.old) }
    ensures taken { IfOk result (λ n. (input : Option (List ℕ)) → Consumes input (R.remaining (inner_of reader.old)) (take filled buffer.old)
        → Consumes input (R.remaining (inner_of reader.new)) (take n buffer.new)) }
    ensures end { IfOk result (λ n. n ≡ filled → filled < length buffer.new → IsAtEnd (R.remaining (inner_of reader.new))) }
    ensures ok { OnOk result (failed_of reader.new ≡ false) }
    ensures err { OnErr result (failed_of reader.new ≡ true) }
    ensures fault { OnErr result (result ≡ Err ExchangeFault.Reader) }
{
    match reader.read(&mut buffer[filled..]) {
        Ok(n) => Ok(filled + n),
        Err(_) => Err(ExchangeFault::Reader),
    }
}

/// Reads until the buffer is full or the input ends, and tells how many bytes came.
pub(crate) fn fill<R: Read>(
    reader: &mut Watched<R>,
    buffer: &mut [u8],
) -> Result<usize, ExchangeFault>
    requires fresh { failed_of reader.old ≡ false }
    ensures within { IfOk result (λ n. n ≤ length buffer.new) }
    ensures taken { IfOk result (λ n. Consumes (R.remaining (inner_of reader.old)) (R.remaining (inner_of reader.new)) (take n buffer.new)) }
    ensures end { IfOk result (λ n. n < length buffer.new → IsAtEnd (R.remaining (inner_of reader.new))) }
    ensures ok { OnOk result (failed_of reader.new ≡ false) }
    ensures err { OnErr result (failed_of reader.new ≡ true) }
    ensures fault { OnErr result (result ≡ Err ExchangeFault.Reader) }
{
    let mut filled = 0;
    while filled < buffer.len() {
        let now = read_on(reader, buffer, filled)?;
        if now == filled {
            return Ok(filled);
        }
        filled = now;
    }
    Ok(filled)
}
