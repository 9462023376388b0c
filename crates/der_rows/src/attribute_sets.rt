use attribute_set::{are_attributes, read_attribute_set};
use std::alloc::Global;

// Attributes of the types 1.2 and 1.3 without values, and one of type 1.2 with a NULL, worked
// by hand from RFC 5652, section 5.3, and X.690. The third has more octets, so it stands last.
const FIRST: &[u8] = b"\x30\x05\x06\x01\x2a\x31\x00";

const SECOND: &[u8] = b"\x30\x05\x06\x01\x2b\x31\x00";

const LONGER: &[u8] = b"\x30\x07\x06\x01\x2a\x31\x02\x05\x00";

// Whether the parts are read exactly where they should be, and the first attribute is there.
fn is_answer(alloc: Global, parts: &[&[u8]], in_order: bool) -> bool {
    let mut octets = Vec::new(alloc);
    for part in parts {
        if octets.extend_from_slice(part).is_err() {
            return false;
        }
    }
    match read_attribute_set(alloc, &octets) {
        Ok(Some(attributes)) => in_order && attributes.iter().next().is_some(),
        Ok(None) => !in_order,
        Err(_) => false,
    }
}

// The last two: out of order, which the length decides first, and a type twice, not beside it.
fn sets_are_read(alloc: Global) -> bool {
    is_answer(alloc, &[FIRST, SECOND], true)
        && is_answer(alloc, &[SECOND, LONGER], true)
        && is_answer(alloc, &[LONGER, SECOND], false)
        && is_answer(alloc, &[FIRST, SECOND, LONGER], false)
}

// In any order.
fn lists_are_told() -> bool {
    let two = b"\x30\x05\x06\x01\x2b\x31\x00\x30\x05\x06\x01\x2a\x31\x00";
    are_attributes(two) && are_attributes(b"") && !are_attributes(&two[1..])
}

#[test]
fn attributes_are_told(rt: HostRuntime) {
    assert!(rt; sets_are_read(rt.alloc()) && lists_are_told());
}
