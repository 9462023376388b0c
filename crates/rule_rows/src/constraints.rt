// Worked rows, as octets.
use attribute_set::read_attribute_set;
use cert_fields::{Ccc, read_ccc};
use constraint_meet::{Grant, grant_of, meet, permits};
use der_core::read_oid;
use std::alloc::{AllocError, Global};

// 1.2.840.113549.1.9.16.1.16, id-ct-firmwarePackage (RFC 4108, section 2.1.5), and
// 1.2.840.113549.1.7.1, id-data (RFC 5652, section 4).
const PACKAGE: &[u8] = b"\x2a\x86\x48\x86\xf7\x0d\x01\x09\x10\x01\x10";

const DATA: &[u8] = b"\x2a\x86\x48\x86\xf7\x0d\x01\x07\x01";

// Constraints (RFC 6010, section 3) on firmware packages: 1.2.3.1 from version 7 on.
const SEVEN: &[u8] =
    b"\x30\x2e\x30\x2c\x06\x0b\x2a\x86\x48\x86\xf7\x0d\x01\x09\x10\x01\x10\x30\x1d\x30\x1b\x06\
    \x0b\x2a\x86\x48\x86\xf7\x0d\x01\x09\x10\x02\x23\x31\x0c\x30\x0a\x30\x08\x06\x03\x2a\x03\
    \x01\x02\x01\x07";

// The same, from version 9 on.
const NINE: &[u8] =
    b"\x30\x2e\x30\x2c\x06\x0b\x2a\x86\x48\x86\xf7\x0d\x01\x09\x10\x01\x10\x30\x1d\x30\x1b\x06\
    \x0b\x2a\x86\x48\x86\xf7\x0d\x01\x09\x10\x02\x23\x31\x0c\x30\x0a\x30\x08\x06\x03\x2a\x03\
    \x01\x02\x01\x09";

// The legacy name 414243.
const LEGACY: &[u8] =
    b"\x30\x29\x30\x27\x06\x0b\x2a\x86\x48\x86\xf7\x0d\x01\x09\x10\x01\x10\x30\x18\x30\x16\x06\
    \x0b\x2a\x86\x48\x86\xf7\x0d\x01\x09\x10\x02\x23\x31\x07\x30\x05\x04\x03\x41\x42\x43";

// Hardware types 1.2.3 and 1.2.4 in one value.
const TWO_TYPES: &[u8] =
    b"\x30\x2c\x30\x2a\x06\x0b\x2a\x86\x48\x86\xf7\x0d\x01\x09\x10\x01\x10\x30\x1b\x30\x19\x06\
    \x0b\x2a\x86\x48\x86\xf7\x0d\x01\x09\x10\x02\x24\x31\x0a\x30\x08\x06\x02\x2a\x03\x06\x02\
    \x2a\x04";

// The same in two values.
const TYPES_APART: &[u8] =
    b"\x30\x2e\x30\x2c\x06\x0b\x2a\x86\x48\x86\xf7\x0d\x01\x09\x10\x01\x10\x30\x1d\x30\x1b\x06\
    \x0b\x2a\x86\x48\x86\xf7\x0d\x01\x09\x10\x02\x24\x31\x0c\x30\x04\x06\x02\x2a\x03\x30\x04\
    \x06\x02\x2a\x04";

// Of an attribute of type 1.2.3 the values 5, 3 and NULL.
const LISTED: &[u8] =
    b"\x30\x21\x30\x1f\x06\x0b\x2a\x86\x48\x86\xf7\x0d\x01\x09\x10\x01\x10\x30\x10\x30\x0e\x06\
    \x02\x2a\x03\x31\x08\x02\x01\x05\x02\x01\x03\x05\x00";

// Any content type.
const ANY_CONTENT: &[u8] = b"\x30\x0f\x30\x0d\x06\x0b\x2a\x86\x48\x86\xf7\x0d\x01\x09\x10\x01\x00";

// Any content type but firmware packages.
const BUT_PACKAGES: &[u8] =
    b"\x30\x21\x30\x10\x06\x0b\x2a\x86\x48\x86\xf7\x0d\x01\x09\x10\x01\x10\x0a\x01\x01\x30\x0d\
    \x06\x0b\x2a\x86\x48\x86\xf7\x0d\x01\x09\x10\x01\x00";

// One attribute: 1.2.3.1 in version 8, with stale number 2.
const EIGHT_STALE: &[u8] =
    b"\x30\x1e\x06\x0b\x2a\x86\x48\x86\xf7\x0d\x01\x09\x10\x02\x23\x31\x0f\x30\x0d\x30\x08\x06\
    \x03\x2a\x03\x01\x02\x01\x08\x02\x01\x02";

// One attribute: 1.2.3.1 in version 6.
const SIX: &[u8] =
    b"\x30\x1b\x06\x0b\x2a\x86\x48\x86\xf7\x0d\x01\x09\x10\x02\x23\x31\x0c\x30\x0a\x30\x08\x06\
    \x03\x2a\x03\x01\x02\x01\x06";

// One attribute: 1.2.3.2 in version 9.
const OTHER_NINE: &[u8] =
    b"\x30\x1b\x06\x0b\x2a\x86\x48\x86\xf7\x0d\x01\x09\x10\x02\x23\x31\x0c\x30\x0a\x30\x08\x06\
    \x03\x2a\x03\x02\x02\x01\x09";

// One attribute: 1.2.3.1 in version 8.
const EIGHT: &[u8] =
    b"\x30\x1b\x06\x0b\x2a\x86\x48\x86\xf7\x0d\x01\x09\x10\x02\x23\x31\x0c\x30\x0a\x30\x08\x06\
    \x03\x2a\x03\x01\x02\x01\x08";

// One attribute: 1.2.3.1 in version 9.
const NINTH: &[u8] =
    b"\x30\x1b\x06\x0b\x2a\x86\x48\x86\xf7\x0d\x01\x09\x10\x02\x23\x31\x0c\x30\x0a\x30\x08\x06\
    \x03\x2a\x03\x01\x02\x01\x09";

// One attribute: 1.2.3.
const FIRST: &[u8] =
    b"\x30\x15\x06\x0b\x2a\x86\x48\x86\xf7\x0d\x01\x09\x10\x02\x24\x31\x06\x30\x04\x06\x02\x2a\
    \x03";

// One attribute: 1.2.3 and 1.2.5.
const ANOTHER: &[u8] =
    b"\x30\x19\x06\x0b\x2a\x86\x48\x86\xf7\x0d\x01\x09\x10\x02\x24\x31\x0a\x30\x08\x06\x02\x2a\
    \x03\x06\x02\x2a\x05";

// One attribute: 1.2.3 and 1.2.4.
const BOTH: &[u8] =
    b"\x30\x19\x06\x0b\x2a\x86\x48\x86\xf7\x0d\x01\x09\x10\x02\x24\x31\x0a\x30\x08\x06\x02\x2a\
    \x03\x06\x02\x2a\x04";

// One attribute: legacy 414243.
const LEGACY_NAME: &[u8] =
    b"\x30\x16\x06\x0b\x2a\x86\x48\x86\xf7\x0d\x01\x09\x10\x02\x23\x31\x07\x30\x05\x04\x03\x41\
    \x42\x43";

// One attribute: the same with a legacy stale value.
const LEGACY_STALE: &[u8] =
    b"\x30\x19\x06\x0b\x2a\x86\x48\x86\xf7\x0d\x01\x09\x10\x02\x23\x31\x0a\x30\x08\x04\x03\x41\
    \x42\x43\x04\x01\x44";

// One attribute: 3 and NULL.
const TWO_LISTED: &[u8] = b"\x30\x0b\x06\x02\x2a\x03\x31\x05\x02\x01\x03\x05\x00";

// One attribute: 4.
const UNLISTED: &[u8] = b"\x30\x09\x06\x02\x2a\x03\x31\x03\x02\x01\x04";

// Whether a grant permits content of this type with these attributes. None where one of them is none.
fn does_permit(alloc: Global, grant: &Grant, content: &[u8], attributes: &[u8]) -> Option<bool> {
    let content = read_oid(content)?;
    match read_attribute_set(alloc, attributes) {
        Ok(Some(attributes)) => Some(permits(grant, &content, &attributes)),
        Ok(None) => None,
        Err(_) => None,
    }
}

// The same of what one member permits, of firmware packages.
fn one_does(alloc: Global, ccc: &Ccc<'_>, attributes: &[u8]) -> Option<bool> {
    match grant_of(alloc, ccc) {
        Ok(grant) => does_permit(alloc, &grant, PACKAGE, attributes),
        Err(_) => None,
    }
}

fn one(alloc: Global, these: &[u8], attributes: &[u8], answer: bool) -> bool {
    match read_ccc(alloc, these) {
        Ok(Some(ccc)) => one_does(alloc, &ccc, attributes) == Some(answer),
        Ok(None) => false,
        Err(_) => false,
    }
}

// What two permit together.
fn both_do(
    alloc: Global,
    these: &Grant<'_>,
    those: &Grant<'_>,
    content: &[u8],
    attributes: &[u8],
) -> Option<bool> {
    match meet(alloc, these, those) {
        Ok(both) => does_permit(alloc, &both, content, attributes),
        Err(_) => None,
    }
}

fn with_another(
    alloc: Global,
    these: &Grant<'_>,
    those: &Ccc<'_>,
    content: &[u8],
    attributes: &[u8],
) -> Option<bool> {
    match grant_of(alloc, those) {
        Ok(those) => both_do(alloc, these, &those, content, attributes),
        Err(_) => None,
    }
}

fn two_do(
    alloc: Global,
    these: &Ccc<'_>,
    those: &Ccc<'_>,
    content: &[u8],
    attributes: &[u8],
) -> Option<bool> {
    match grant_of(alloc, these) {
        Ok(these) => with_another(alloc, &these, those, content, attributes),
        Err(_) => None,
    }
}

fn two(
    alloc: Global,
    members: (&[u8], &[u8]),
    content: &[u8],
    attributes: &[u8],
    answer: bool,
) -> bool {
    match (read_ccc(alloc, members.0), read_ccc(alloc, members.1)) {
        (Ok(Some(these)), Ok(Some(those))) => {
            two_do(alloc, &these, &those, content, attributes) == Some(answer)
        }
        _ => false,
    }
}

// What an anchor and a certificate permit.
fn path_does<'a>(
    alloc: Global,
    anchor: Option<&Ccc<'a>>,
    certificate: Option<&Ccc<'a>>,
) -> Option<bool> {
    match Grant::everything().with_anchor(alloc, anchor) {
        Ok(grant) => goes_on(alloc, grant, certificate),
        Err(_) => None,
    }
}

fn goes_on<'a>(alloc: Global, grant: Grant<'a>, certificate: Option<&Ccc<'a>>) -> Option<bool> {
    match grant.with_certificate(alloc, certificate) {
        Ok(grant) => does_permit(alloc, &grant, PACKAGE, EIGHT),
        Err(_) => None,
    }
}

// The same with or without the constraints of each.
fn path(alloc: Global, anchor: bool, certificate: bool, answer: bool) -> bool {
    match read_ccc(alloc, SEVEN) {
        Ok(Some(ccc)) => {
            let (anchor, certificate) = (anchor.then_some(&ccc), certificate.then_some(&ccc));
            path_does(alloc, anchor, certificate) == Some(answer)
        }
        Ok(None) => false,
        Err(_) => false,
    }
}

// The last three are looked up, of which the last has no such attribute.
fn values_are_covered_in(alloc: Global) -> bool {
    one(alloc, SEVEN, EIGHT_STALE, true)
        && one(alloc, SEVEN, SIX, false)
        && one(alloc, SEVEN, OTHER_NINE, false)
        && one(alloc, TWO_TYPES, FIRST, true)
        && one(alloc, TWO_TYPES, ANOTHER, false)
        && one(alloc, TYPES_APART, BOTH, false)
        && one(alloc, LEGACY, LEGACY_NAME, true)
        && one(alloc, LEGACY, LEGACY_STALE, false)
        && one(alloc, LISTED, TWO_LISTED, true)
        && one(alloc, LISTED, UNLISTED, false)
        && one(alloc, LISTED, SIX, true)
}

#[test]
fn values_are_covered(rt: HostRuntime) {
    assert!(rt; values_are_covered_in(rt.alloc()));
}

// An entry that refuses is kept beside the other's for any content.
#[test]
fn members_permit_together(rt: HostRuntime) {
    let alloc = rt.alloc();
    assert!(rt; two(alloc, (SEVEN, NINE), PACKAGE, EIGHT, false));
    assert!(rt; two(alloc, (SEVEN, NINE), PACKAGE, NINTH, true));
    assert!(rt; two(alloc, (ANY_CONTENT, BUT_PACKAGES), PACKAGE, b"", false));
    assert!(rt; two(alloc, (ANY_CONTENT, BUT_PACKAGES), DATA, b"", true));
}

fn grant_does(alloc: Global, grant: &Grant<'_>, answer: bool) -> bool {
    does_permit(alloc, grant, PACKAGE, SIX) == Some(answer)
}

// A certificate without the extension permits nothing, an anchor without it everything.
#[test]
fn extensions_are_missing(rt: HostRuntime) {
    let alloc = rt.alloc();
    assert!(rt; path(alloc, true, true, true) && path(alloc, false, true, true));
    assert!(rt; path(alloc, true, false, false));
    assert!(rt; grant_does(alloc, &Grant::everything(), true));
    assert!(rt; grant_does(alloc, &Grant::nothing(), false));
}
