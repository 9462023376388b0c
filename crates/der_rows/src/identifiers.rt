use package_attrs::{identifier_covers, read_identifier, targets_cover};

// Worked by hand from RFC 4108, section 2.2.3, and X.690.
fn reads(text: &[u8]) -> bool {
    read_identifier(text).is_some()
}

// A preferred name alone, with a stale number, and with a stale value of the other kind; and a
// legacy name with a stale value and with an empty one.
#[test]
fn names_are_read(rt: HostRuntime) {
    let alone = b"\x30\x09\x30\x07\x06\x02\x2a\x03\x02\x01\x07";
    let stale = b"\x30\x0c\x30\x07\x06\x02\x2a\x03\x02\x01\x07\x02\x01\x05";
    let other = b"\x30\x0d\x30\x07\x06\x02\x2a\x03\x02\x01\x07\x04\x02\x41\x41";
    let legacy = b"\x30\x06\x04\x01\x42\x04\x01\x41";
    let empty = b"\x30\x05\x04\x01\x42\x04\x00";
    assert!(rt; reads(alone) && reads(stale) && !reads(other) && reads(legacy) && !reads(empty));
}

// 1.2.3.1 in version 7, in version 8 with a stale number, in version 6, and 1.2.3.2 in
// version 9; and a legacy name without and with a stale value.
const SEVEN: &[u8] = b"\x30\x0a\x30\x08\x06\x03\x2a\x03\x01\x02\x01\x07";

const EIGHT: &[u8] = b"\x30\x0d\x30\x08\x06\x03\x2a\x03\x01\x02\x01\x08\x02\x01\x02";

const SIX: &[u8] = b"\x30\x0a\x30\x08\x06\x03\x2a\x03\x01\x02\x01\x06";

const OTHER: &[u8] = b"\x30\x0a\x30\x08\x06\x03\x2a\x03\x02\x02\x01\x09";

const LEGACY: &[u8] = b"\x30\x05\x04\x03\x41\x42\x43";

const STALE: &[u8] = b"\x30\x08\x04\x03\x41\x42\x43\x04\x01\x44";

// 1.2.3 and 1.2.4; the first of them; and 1.2.3 and 1.2.5.
const TWO: &[u8] = b"\x30\x08\x06\x02\x2a\x03\x06\x02\x2a\x04";

const FIRST: &[u8] = b"\x30\x04\x06\x02\x2a\x03";

const ANOTHER: &[u8] = b"\x30\x08\x06\x02\x2a\x03\x06\x02\x2a\x05";

// Whether the first covers the second exactly where it should.
fn is_covered(first: &[u8], second: &[u8], wanted: bool) -> bool {
    identifier_covers(first, second) == wanted
}

fn are_covered(first: &[u8], second: &[u8], wanted: bool) -> bool {
    targets_cover(first, second) == wanted
}

#[test]
fn later_versions_and_fewer_types_are_covered(rt: HostRuntime) {
    assert!(rt; is_covered(SEVEN, EIGHT, true) && is_covered(SEVEN, SIX, false));
    assert!(rt; is_covered(SEVEN, OTHER, false));
    assert!(rt; is_covered(LEGACY, LEGACY, true) && is_covered(LEGACY, STALE, false));
    assert!(rt; are_covered(TWO, FIRST, true) && are_covered(TWO, TWO, true));
    assert!(rt; are_covered(TWO, ANOTHER, false) && are_covered(FIRST, TWO, false));
    assert!(rt; are_covered(b"\x05", b"\x05", true));
}
