// Writing communities.
ghost use Rattle.std.specs.Prelude.{◌≡◌, ◌++◌, ◌+◌, ◌*◌, ◌≤◌, OnOk, OnErr, IfOk, length, map};
ghost use Rattle.package_attrs.specs.Communities.{serial_entry_text, community_text, communities_contents, communities_text};
ghost use Rattle.attribute_write.specs.Communities.{community_of};

use der_core::{Oid, tags};
use der_write::{put_oid, put_tlv};
use package_attrs::SerialEntry;
use std::alloc::{AllocError, Global};

/// A community as its packager names it (RFC 4108, section 2.2.8).
#[derive(Clone, Copy, Debug)]
pub enum NamedCommunity {
    /// The modules that list this identifier.
    Group(Oid),
    /// The modules of a hardware type that a serial entry names.
    Modules { hw_type: Oid, serial: SerialEntry },
}

/// Appends the text of the communities that a package is for (RFC 4108, section 2.2.8). They are 64
/// at most.
pub fn put_communities(
    alloc: Global,
    out: &mut Vec<u8>,
    communities: &[NamedCommunity],
) -> Result<(), AllocError>
    requires few { length communities.now ≤ 64 }
    ensures ok { OnOk result (out.new.items
        ≡ out.old.items ++ communities_text (map community_of communities.now)) }
    ensures most { OnOk result (length out.new.items ≤ length out.old.items + 15000) }
    ensures err { OnErr result (out.new.items ≡ out.old.items) }
{
    let contents = contents(alloc, communities)?;
    put_tlv(alloc, out, tags::SEQUENCE, &contents)
}

// The communities one after the other.
fn contents(alloc: Global, communities: &[NamedCommunity]) -> Result<Vec<u8>, AllocError>
    ensures ok { IfOk result (λ all. all.items
        ≡ communities_contents (map community_of communities.now)) }
    ensures most { IfOk result (λ all. length all.items ≤ 234 * length communities.now) }
{
    let mut all = Vec::new(alloc);
    for community in communities {
        put_community(alloc, &mut all, community)?;
    }
    Ok(all)
}

fn put_community(
    alloc: Global,
    out: &mut Vec<u8>,
    community: &NamedCommunity,
) -> Result<(), AllocError>
    ensures ok { OnOk result (out.new.items
        ≡ out.old.items ++ community_text (community_of community.now)) }
    ensures most { OnOk result (length out.new.items ≤ length out.old.items + 234) }
    ensures err { OnErr result (out.new.items ≡ out.old.items) }
{
    match community {
        NamedCommunity::Group(id) => put_oid(alloc, out, id),
        NamedCommunity::Modules { hw_type, serial } => {
            let mut serials = Vec::new(alloc);
            put_serial_entry(alloc, &mut serials, serial)?;
            let mut contents = Vec::new(alloc);
            put_oid(alloc, &mut contents, hw_type)?;
            put_tlv(alloc, &mut contents, tags::SEQUENCE, &serials)?;
            put_tlv(alloc, out, tags::SEQUENCE, &contents)
        }
    }
}

fn put_serial_entry(alloc: Global, out: &mut Vec<u8>, entry: &SerialEntry) -> Result<(), AllocError>
    ensures ok { OnOk result (out.new.items ≡ out.old.items ++ serial_entry_text entry.now) }
    ensures most { OnOk result (length out.new.items ≤ length out.old.items + 152) }
    ensures err { OnErr result (out.new.items ≡ out.old.items) }
{
    match entry {
        SerialEntry::All => put_tlv(alloc, out, tags::NULL, &[]),
        SerialEntry::Single(serial) => put_tlv(alloc, out, tags::OCTET_STRING, serial.octets()),
        SerialEntry::Block { low, high } => {
            let mut ends = Vec::new(alloc);
            put_tlv(alloc, &mut ends, tags::OCTET_STRING, low.octets())?;
            put_tlv(alloc, &mut ends, tags::OCTET_STRING, high.octets())?;
            put_tlv(alloc, out, tags::SEQUENCE, &ends)
        }
    }
}
