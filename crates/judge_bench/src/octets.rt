// Octets of items, put together and bent.
use der_write::put_tlv;
use memchr::memmem;
use std::alloc::Global;

/// An element with this tag and these contents.
pub fn element(alloc: Global, tag: u8, contents: &[u8]) -> Option<Vec<u8>> {
    if tag % 32 == 31 || contents.len() > 0x1000_0000 {
        return None;
    }
    let mut octets = Vec::new(alloc);
    match put_tlv(alloc, &mut octets, tag, contents) {
        Ok(()) => Some(octets),
        Err(_) => None,
    }
}

/// An element with these parts, one after the other.
pub fn element_of(alloc: Global, tag: u8, parts: &[&[u8]]) -> Option<Vec<u8>> {
    match parts.concat(alloc) {
        Ok(contents) => element(alloc, tag, &contents),
        Err(_) => None,
    }
}

/// The octets with others in place of the first of them that are these.
pub fn bent(alloc: Global, octets: &[u8], from: &[u8], to: &[u8]) -> Option<Vec<u8>> {
    let place = memmem::find(octets, from)?;
    let front = octets.get(..place)?;
    let behind = octets.get(place..)?.strip_prefix(from)?;
    [front, to, behind].concat(alloc).ok()
}
