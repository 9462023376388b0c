// Writing an attribute.
ghost use Rattle.std.specs.Prelude.{◌≡◌, ◌++◌, ◌+◌, ◌≤◌, ◌^◌, OnOk, OnErr, length};
ghost use Rattle.der_core.specs.Attribute.{attribute_text};

use der_core::tags;
use der_write::put_tlv;
use std::alloc::{AllocError, Global};

/// Appends an attribute of this type, by the contents of its OBJECT IDENTIFIER, with this one value,
/// an element (RFC 5652, section 5.3).
pub fn put_attribute(
    alloc: Global,
    out: &mut Vec<u8>,
    kind: &[u8],
    value: &[u8],
) -> Result<(), AllocError>
    requires kind { length kind.now ≤ 64 }
    requires value { length value.now ≤ 2 ^ 31 }
    ensures ok { OnOk result (out.new.items
        ≡ out.old.items ++ attribute_text (record { kind = kind.now; values = value.now })) }
    ensures most { OnOk result (length out.new.items
        ≤ length out.old.items + length value.now + 82) }
    ensures err { OnErr result (out.new.items ≡ out.old.items) }
{
    let mut contents = Vec::new(alloc);
    put_tlv(alloc, &mut contents, tags::OBJECT_IDENTIFIER, kind)?;
    put_tlv(alloc, &mut contents, tags::SET, value)?;
    put_tlv(alloc, out, tags::SEQUENCE, &contents)
}
