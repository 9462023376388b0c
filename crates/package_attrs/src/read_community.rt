// Reading the communities that a package is for.
ghost use Rattle.std.specs.Prelude.{◌≡◌, is_some};
ghost use Rattle.der_core.specs.Reads.{Reads, Answers};
ghost use Rattle.der_core.specs.Shapes.{listed};
ghost use Rattle.package_attrs.specs.Communities.{communities_text, AreCommunities};
ghost use Rattle.package_attrs.specs.ListReading.{modules_of, community_at, communities_of};
ghost use Rattle.package_attrs.specs.SerialReading.{block_of, serial_entry_at};

use crate::fields::{read_octets_at, read_oid_at};
use crate::{Communities, Community, SerialEntries, SerialEntry};
use der_core::{Cursor, Octets64, Oid, read_oid, tags};

// The two ends of a block of serial numbers.
#[tactic(auto, unfolding(crate::specs::SerialReading::block_of))]
fn read_block(ends: &[u8]) -> Option<(Octets64, Octets64)>
    ensures exact { Answers (λ ends. ends) result (block_of ends.now) }
{
    let mut ends = Cursor::new(ends);
    let low = read_octets_at(&mut ends)?;
    let high = read_octets_at(&mut ends)?;
    if ends.at_end() {
        Some((low, high))
    } else {
        None
    }
}

// The serial entry at the front: a NULL names all modules.
#[tactic(auto, unfolding(crate::specs::SerialReading::serial_entry_at))]
pub(crate) fn read_serial_entry(items: &mut Cursor<'_>) -> Option<SerialEntry>
    ensures exact { Answers (λ entry. (entry, items.new)) result (serial_entry_at items.old) }
{
    if items.is_at(tags::NULL) {
        if items.tagged(tags::NULL)?.is_empty() {
            Some(SerialEntry::All)
        } else {
            None
        }
    } else if items.is_at(tags::OCTET_STRING) {
        Some(SerialEntry::Single(Octets64::some(items.tagged(tags::OCTET_STRING)?)?))
    } else {
        let (low, high) = read_block(items.tagged(tags::SEQUENCE)?)?;
        Some(SerialEntry::Block { low, high })
    }
}

// Whether the octets are serial entries, one after the other.
fn are_serials(contents: &[u8]) -> bool
    ensures { result ≡ is_some (listed serial_entry_at contents.now) }
{
    let mut items = Cursor::new(contents);
    while !items.at_end() {
        if read_serial_entry(&mut items).is_none() {
            return false;
        }
    }
    true
}

// The serial entries that the octets are, one after the other.
fn read_serials(contents: &[u8]) -> Option<SerialEntries<'_>>
    ensures exact { Answers (λ entries. entries) result (listed serial_entry_at contents.now) }
{
    if are_serials(contents) {
        Some(SerialEntries { octets: contents })
    } else {
        None
    }
}

// A hardware type and serial entries.
#[tactic(auto, unfolding(crate::specs::ListReading::modules_of))]
fn read_modules(parts: &[u8]) -> Option<(Oid, SerialEntries<'_>)>
    ensures exact { Answers (λ pair. pair) result (modules_of parts.now) }
{
    let mut parts = Cursor::new(parts);
    let hw_type = read_oid_at(&mut parts)?;
    let serials = read_serials(parts.tagged(tags::SEQUENCE)?)?;
    if parts.at_end() {
        Some((hw_type, serials))
    } else {
        None
    }
}

// The community at the front.
#[tactic(auto, unfolding(crate::specs::ListReading::community_at, crate::specs::Reading::oid_at))]
pub(crate) fn read_community<'a>(items: &mut Cursor<'a>) -> Option<Community<'a>>
    ensures exact { Answers (λ community. (community, items.new)) result
        (community_at items.old) }
{
    if items.is_at(tags::OBJECT_IDENTIFIER) {
        return Some(Community::Group(read_oid_at(items)?));
    }
    let (hw_type, serials) = read_modules(items.tagged(tags::SEQUENCE)?)?;
    Some(Community::Modules { hw_type, serials })
}

// Whether the octets are communities, one after the other.
fn are_communities(contents: &[u8]) -> bool
    ensures { result ≡ is_some (listed community_at contents.now) }
{
    let mut items = Cursor::new(contents);
    while !items.at_end() {
        if read_community(&mut items).is_none() {
            return false;
        }
    }
    true
}

// The communities that the octets are, one after the other.
fn read_list(contents: &[u8]) -> Option<Communities<'_>>
    ensures exact { Answers (λ list. list) result (listed community_at contents.now) }
{
    if are_communities(contents) {
        Some(Communities { octets: contents })
    } else {
        None
    }
}

#[tactic(auto, unfolding(crate::specs::ListReading::communities_of))]
fn read_whole(bytes: &[u8]) -> Option<Communities<'_>>
    ensures exact { Answers (λ list. list) result (communities_of bytes.now) }
{
    let mut items = Cursor::new(bytes);
    let communities = read_list(items.tagged(tags::SEQUENCE)?)?;
    if items.at_end() {
        Some(communities)
    } else {
        None
    }
}

/// The communities whose text the octets are, all of them (RFC 4108, section 2.2.8). There may be
/// none, and a community of modules may have no serial entries.
pub fn read_communities(bytes: &[u8]) -> Option<Communities<'_>>
    ensures spelled { Reads communities_text AreCommunities bytes.now result }
    ensures exact { Answers (λ list. list) result (communities_of bytes.now) }
{
    read_whole(bytes)
}
