ghost use Rattle.std.specs.Prelude.{◌≡◌};
ghost use Rattle.gp_text.specs.Hops.{goes_on, is_hop, is_own};

use crate::list::has_part;
use gp_plain::Field;

/// Whether fields of this name are of one connection alone.
fn is_hop(name: &[u8]) -> bool
    ensures { result ≡ is_hop name.now }
{
    name == b"connection".as_slice()
        || name == b"keep-alive".as_slice()
        || name == b"proxy-connection".as_slice()
        || name == b"te".as_slice()
        || name == b"trailer".as_slice()
        || name == b"transfer-encoding".as_slice()
        || name == b"upgrade".as_slice()
}

/// Whether a proxy with holds takes such fields in, or writes them anew.
fn is_own(name: &[u8]) -> bool
    ensures { result ≡ is_own name.now }
{
    name == b"content-length".as_slice()
        || name == b"expect".as_slice()
        || name == b"grip-sig".as_slice()
        || name == b"grip-last".as_slice()
}

/// Whether a field of a message goes on to the next connection: it is no field of the connection alone, `connection`
/// doesn't list it, and the proxy neither takes it in nor writes it anew.
pub fn goes_on(fields: &[Field], field: &Field) -> bool
    ensures { result ≡ goes_on fields.now field.now }
{
    let name = field.name.bytes();
    !(is_hop(name) || is_own(name) || has_part(fields, b"connection", name))
}
