// Writing a package's name.
ghost use Rattle.std.specs.Prelude.{◌≡◌, ◌++◌, ◌≤◌, ◌+◌, IfOk, OnOk, OnErr, length};
ghost use Rattle.der_core.specs.Element.{enc};
ghost use Rattle.der_core.specs.Number.{number_contents};
ghost use Rattle.package_attrs.specs.Identifier.{name_text};

use der_core::{Oid, tags};
use der_write::{put_oid, put_tlv, put_u128};
use package_attrs::PackageName;
use std::alloc::{AllocError, Global};

/// Appends the name's text: the SEQUENCE of identifier and version of a preferred name, or the OCTET
/// STRING of a legacy one (RFC 4108, section 2.2.3). They are 99 octets at most.
pub fn put_name(alloc: Global, out: &mut Vec<u8>, name: &PackageName) -> Result<(), AllocError>
    ensures ok { OnOk result (out.new.items ≡ out.old.items ++ name_text name.now) }
    ensures most { OnOk result (length out.new.items ≤ length out.old.items + 99) }
    ensures err { OnErr result (out.new.items ≡ out.old.items) }
{
    match name {
        PackageName::Preferred { id, version } => {
            let contents = preferred_contents(alloc, id, *version)?;
            put_tlv(alloc, out, tags::SEQUENCE, &contents)
        }
        PackageName::Legacy(octets) => put_tlv(alloc, out, tags::OCTET_STRING, octets.octets()),
    }
}

// The identifier and the version of a preferred name.
fn preferred_contents(alloc: Global, id: &Oid, version: u128) -> Result<Vec<u8>, AllocError>
    ensures ok { IfOk result (λ contents. contents.items
        ≡ enc 0x06 id.now ++ enc 0x02 (number_contents version)) }
    ensures most { IfOk result (λ contents. length contents.items ≤ 93) }
{
    let mut contents = Vec::new(alloc);
    put_oid(alloc, &mut contents, id)?;
    put_u128(alloc, &mut contents, version)?;
    Ok(contents)
}
