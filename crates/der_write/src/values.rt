ghost use Rattle.std.specs.Prelude.{◌≡◌, ◌++◌, ◌≤◌, ◌+◌, length, OnOk, OnErr};
ghost use Rattle.der_core.specs.Element.{enc};
ghost use Rattle.der_core.specs.Number.{number_contents};

use crate::digits::{ROOM, write_number};
use crate::element::put_tlv;
use der_core::{Oid, tags};
use std::alloc::{AllocError, Global};

/// Appends an OBJECT IDENTIFIER (X.690, section 8.19), in 70 octets at most.
pub fn put_oid(alloc: Global, out: &mut Vec<u8>, oid: &Oid) -> Result<(), AllocError>
    ensures ok { OnOk result (out.new.items ≡ out.old.items ++ enc 0x06 oid.now) }
    ensures most { OnOk result (length out.new.items ≤ length out.old.items + 70) }
    ensures err { OnErr result (out.new.items ≡ out.old.items) }
{
    put_tlv(alloc, out, tags::OBJECT_IDENTIFIER, oid.octets())
}

/// Appends an INTEGER that isn't negative, in the fewest octets (X.690, section 8.3), 23 octets in
/// all at most.
pub fn put_u128(alloc: Global, out: &mut Vec<u8>, number: u128) -> Result<(), AllocError>
    ensures ok { OnOk result (out.new.items ≡ out.old.items ++ enc 0x02 (number_contents number)) }
    ensures most { OnOk result (length out.new.items ≤ length out.old.items + 23) }
    ensures err { OnErr result (out.new.items ≡ out.old.items) }
{
    let mut buffer = [0; ROOM];
    let start = write_number(&mut buffer, number);
    put_tlv(alloc, out, tags::INTEGER, &buffer[start..])
}
