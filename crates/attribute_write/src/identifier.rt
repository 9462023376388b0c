// Writing a package's identifier.
ghost use Rattle.std.specs.Prelude.{◌≡◌, ◌++◌, ◌+◌, ◌≤◌, OnOk, OnErr, IfOk, length};
ghost use Rattle.der_core.specs.Shapes.{text_if};
ghost use Rattle.package_attrs.specs.Identifier.{identifier_text, name_text, stale_text, view};

use der_core::tags;
use der_write::{put_tlv, put_u128};
use name_write::put_name;
use package_attrs::{Identifier, Stale};
use std::alloc::{AllocError, Global};

/// Appends the text of a package's name and its stale value (RFC 4108, section 2.2.3), 175 octets
/// at most.
pub fn put_identifier(
    alloc: Global,
    out: &mut Vec<u8>,
    identifier: &Identifier,
) -> Result<(), AllocError>
    ensures ok { OnOk result (out.new.items
        ≡ out.old.items ++ identifier_text (view identifier.now)) }
    ensures most { OnOk result (length out.new.items ≤ length out.old.items + 175) }
    ensures err { OnErr result (out.new.items ≡ out.old.items) }
{
    let mut contents = Vec::new(alloc);
    put_name(alloc, &mut contents, &identifier.name)?;
    if let Some(stale) = &identifier.stale {
        put_stale(alloc, &mut contents, stale)?;
    }
    put_tlv(alloc, out, tags::SEQUENCE, &contents)
}

// The stale value.
fn put_stale(alloc: Global, out: &mut Vec<u8>, stale: &Stale) -> Result<(), AllocError>
    ensures ok { OnOk result (out.new.items ≡ out.old.items ++ stale_text stale.now) }
    ensures most { OnOk result (length out.new.items ≤ length out.old.items + 70) }
    ensures err { OnErr result (out.new.items ≡ out.old.items) }
{
    match stale {
        Stale::Upto(number) => put_u128(alloc, out, *number),
        Stale::Legacy(octets) => put_tlv(alloc, out, tags::OCTET_STRING, octets.octets()),
    }
}
