// Octets worked by hand from RFC 4108, section 2.2, and X.690.
ghost use Rattle.std.specs.Prelude.{◌≤◌, length};

use attribute_write::{
    NamedCommunity, put_attribute, put_communities, put_identifier, put_info, put_targets,
};
use der_core::{Octets64, Oid, read_oid};
use name_write::put_name;
use package_attrs::{Identifier, PackageName, SerialEntry, Stale};
use std::alloc::Global;

fn writes_name(alloc: Global, name: &PackageName, text: &[u8]) -> bool {
    let mut out = Vec::new(alloc);
    put_name(alloc, &mut out, name).is_ok() && out.as_slice() == text
}

// The attribute of the type 1.2 whose value is an identifier.
fn writes_identifier(alloc: Global, identifier: &Identifier, text: &[u8]) -> bool {
    let mut value = Vec::new(alloc);
    let mut out = Vec::new(alloc);
    put_identifier(alloc, &mut value, identifier).is_ok()
        && put_attribute(alloc, &mut out, &[0x2a], &value).is_ok()
        && out.as_slice() == text
}

fn writes_targets(alloc: Global, hw_type: Oid, text: &[u8]) -> bool {
    let mut out = Vec::new(alloc);
    put_targets(alloc, &mut out, &[hw_type]).is_ok() && out.as_slice() == text
}

fn writes_communities(alloc: Global, communities: &[NamedCommunity], text: &[u8]) -> bool
    requires { length communities.now ≤ 64 }
{
    let mut out = Vec::new(alloc);
    put_communities(alloc, &mut out, communities).is_ok() && out.as_slice() == text
}

fn writes_info(alloc: Global, kind: Option<u128>, needs: &[PackageName], text: &[u8]) -> bool
    requires { length needs.now ≤ 8 }
{
    let mut out = Vec::new(alloc);
    put_info(alloc, &mut out, kind, needs).is_ok() && out.as_slice() == text
}

const NAME: &[u8] = b"\x30\x08\x06\x03\x2a\x03\x01\x02\x01\x07";

const IDENTIFIER: &[u8] =
    b"\x30\x14\x06\x01\x2a\x31\x0f\x30\x0d\x30\x08\x06\x03\x2a\x03\x01\x02\x01\x07\x02\x01\x05";

const TARGETS: &[u8] = b"\x30\x05\x06\x03\x2a\x03\x01";

// 1.2.3.1 in version 7, alone and with the stale number 5; and a target.
fn writes_identifiers(alloc: Global) -> bool {
    let Some(id) = read_oid(b"\x2a\x03\x01") else {
        return false;
    };
    let name = PackageName::Preferred { id, version: 7 };
    let stale = Some(Stale::Upto(5));
    writes_name(alloc, &name, NAME)
        && writes_identifier(alloc, &Identifier { name, stale }, IDENTIFIER)
        && writes_targets(alloc, id, TARGETS)
}

const COMMUNITIES: &[u8] = b"\x30\x14\x06\x02\x2a\x03\x30\x0e\x06\x02\x2a\x03\
    \x30\x08\x30\x06\x04\x01A\x04\x01B";

// 1.2.3, and modules of that type with the serial numbers 41 to 42.
fn writes_whom_it_is_for(alloc: Global) -> bool {
    let Some(hw_type) = read_oid(b"\x2a\x03") else {
        return false;
    };
    let Some(low) = Octets64::new(b"A") else {
        return false;
    };
    let Some(high) = Octets64::new(b"B") else {
        return false;
    };
    let serial = SerialEntry::Block { low, high };
    let communities = [
        NamedCommunity::Group(hw_type),
        NamedCommunity::Modules { hw_type, serial },
    ];
    writes_communities(alloc, &communities, COMMUNITIES)
}

// A legacy name, a type without dependencies, and a dependency without a type.
fn writes_dependencies(alloc: Global) -> bool {
    let Some(octets) = Octets64::new(b"ABC") else {
        return false;
    };
    let name = PackageName::Legacy(octets);
    writes_name(alloc, &name, b"\x04\x03ABC")
        && writes_info(alloc, Some(9), &[], b"\x30\x03\x02\x01\x09")
        && writes_info(alloc, None, &[name], b"\x30\x07\x30\x05\x04\x03ABC")
}

#[test]
fn attributes_are_written(rt: HostRuntime) {
    let alloc = rt.alloc();
    assert!(rt; writes_identifiers(alloc) && writes_whom_it_is_for(alloc));
    assert!(rt; writes_dependencies(alloc));
}
