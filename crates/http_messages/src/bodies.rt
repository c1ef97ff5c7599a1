// The body of a request.
ghost use Rattle.std.specs.Prelude.{◌≡◌, ◌↔◌, ◌++◌, Err, true, false, IfOk, IfSome, option_map};
ghost use Rattle.plan_basics.specs.Watched.{inner_of, failed_of};
ghost use Rattle.http_messages.specs.Heads.{IsFront};

use crate::asking::ExchangeFault;
use crate::reading::fill;
use plan_basics::Watched;
use std::alloc::Global;
use std::io::Read;

/// A body of so many bytes, whose front may have been read with the head; none where the input ends before. No more than
/// the body is read.
pub(crate) fn read_body<R: Read>(
    alloc: Global,
    reader: &mut Watched<R>,
    front: &[u8],
    length: usize,
) -> Result<Option<Vec<u8>>, ExchangeFault>
    requires fresh { failed_of reader.old ≡ false }
    ensures body { IfOk result (λ found. IfSome (R.remaining (inner_of reader.old))
        (λ left. IsFront (front.now ++ left) length (option_map (λ body. body.items) found))) }
    ensures reader_fault { (result ≡ Err ExchangeFault.Reader) ↔ (failed_of reader.new ≡ true) }
{
    if length <= front.len() {
        return Ok(Some(front[..length].to_vec(alloc)?));
    }
    let mut missing = vec![in alloc; 0; length - front.len()]?;
    if fill(reader, &mut missing)? < missing.len() {
        return Ok(None);
    }
    let mut body = Vec::with_capacity(alloc, length)?;
    body.extend_from_slice(front)?;
    body.extend_from_slice(&missing)?;
    Ok(Some(body))
}
