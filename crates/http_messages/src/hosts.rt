// The names of this machine.
ghost use Rattle.std.specs.Prelude.{◌↔◌, ℕ, List, IsTrue};
ghost use Rattle.http_messages.specs.Foreign.{AreForeign, IsAddress, IsOwnName, host_name, is_address_byte as is_address_code};
ghost use Rattle.http_messages.specs.Heads.{AreValues};

use crate::bytes::before;
use crate::fields::Values;

fn is_address_byte(byte: u8) -> bool
    ensures { IsTrue result ↔ IsTrue (is_address_code byte) }
{
    matches!(byte, b'0'..=b'9' | b'.')
}

// Whether a name is one or more digits and dots.
fn is_address(name: &[u8]) -> bool
    ensures { IsTrue result ↔ IsAddress name.now }
{
    !name.is_empty() && name.iter().all(|byte| is_address_byte(*byte))
}

// Whether a host is this machine, by its name.
fn is_own(host: &[u8]) -> bool
    ensures { IsTrue result ↔ IsOwnName (host_name host.now) }
{
    let name = before(host, b':');
    name.eq_ignore_ascii_case(b"localhost") || is_address(name)
}

/// Whether the hosts of a request are several, or one of another name than this machine's own.
pub(crate) fn are_foreign(hosts: Values<'_>) -> bool
    ensures { (values : List (List ℕ)) → AreValues values hosts.entry → (IsTrue result ↔ AreForeign values) }
{
    match hosts {
        Values::Absent => false,
        Values::Single(host) => !is_own(host),
        Values::Several => true,
    }
}
