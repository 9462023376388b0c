// Records of modules.
use crate::octets::{element, element_of};
use crate::signer::public_octets;
use std::alloc::Global;

// The version, the hardware type 1.2.3 and the serial number 00 01.
const FRONT: &[u8] = b"\x02\x01\x01\x06\x02\x2a\x03\x04\x02\x00\x01";

/// No communities and no types, and a capacity of 16 blocks.
pub const LISTS: &[u8] = b"\x30\x00\x30\x00\x02\x01\x10";

/// The community 1.2.3.100, the type 1, and a capacity of 127 blocks.
pub const LISTED: &[u8] = b"\x30\x05\x06\x03\x2a\x03\x64\x30\x03\x02\x01\x01\x02\x01\x7f";

// The name of the anchor, with one commonName, and its key identifier A1.
const ROOT: &[u8] = b"\x30\x0f\x31\x0d\x30\x0b\x06\x03\x55\x04\x03\x0c\x04root\x04\x01\xa1";

// The key H5 W4 of octets 00.
const KEY: &[u8] = b"\x30\x3a\x02\x01\x05\x02\x01\x03\
    \x04\x20\x00\x00\x00\x00\x00\x00\x00\x00\x00\x00\x00\x00\x00\x00\x00\x00\
    \x00\x00\x00\x00\x00\x00\x00\x00\x00\x00\x00\x00\x00\x00\x00\x00\
    \x04\x10\x00\x00\x00\x00\x00\x00\x00\x00\x00\x00\x00\x00\x00\x00\x00\x00";

// The anchor `root` with a key and these constraints.
fn anchor(alloc: Global, key: &[u8], constraints: &[u8]) -> Option<Vec<u8>> {
    let key = element(alloc, 0x04, key)?;
    if constraints.is_empty() {
        return element_of(alloc, 0x30, &[ROOT, &key]);
    }
    let tagged = element(alloc, 0xa0, constraints)?;
    element_of(alloc, 0x30, &[ROOT, &key, &tagged])
}

/// The record of a module with these lists and capacity, and with an anchor.
pub fn record_of(alloc: Global, lists: &[u8], key: &[u8], constraints: &[u8]) -> Option<Vec<u8>> {
    let anchor = anchor(alloc, key, constraints)?;
    let anchors = element(alloc, 0x30, &anchor)?;
    element_of(alloc, 0x30, &[FRONT, lists, &anchors, KEY])
}

/// The same with the key of octets 01 and no constraints.
pub fn record(alloc: Global, lists: &[u8]) -> Option<Vec<u8>> {
    record_of(alloc, lists, &public_octets(alloc, 1)?, b"")
}
