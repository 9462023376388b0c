// Worked rows, as octets.
use cert_fields::{Ccc, read_ccc};
use constraint_meet::Grant;
use der_core::Condition;
use explain_text::{put_grant, put_path, put_verdict};
use std::alloc::Global;

// Constraints (RFC 6010, section 3) on firmware packages: 1.2.3.1 from version 7 on.
const SEVEN: &[u8] =
    b"\x30\x2e\x30\x2c\x06\x0b\x2a\x86\x48\x86\xf7\x0d\x01\x09\x10\x01\x10\x30\x1d\x30\x1b\x06\
    \x0b\x2a\x86\x48\x86\xf7\x0d\x01\x09\x10\x02\x23\x31\x0c\x30\x0a\x30\x08\x06\x03\x2a\x03\
    \x01\x02\x01\x07";

// The same, from version 9 on.
const NINE: &[u8] =
    b"\x30\x2e\x30\x2c\x06\x0b\x2a\x86\x48\x86\xf7\x0d\x01\x09\x10\x01\x10\x30\x1d\x30\x1b\x06\
    \x0b\x2a\x86\x48\x86\xf7\x0d\x01\x09\x10\x02\x23\x31\x0c\x30\x0a\x30\x08\x06\x03\x2a\x03\
    \x01\x02\x01\x09";

// Any content type.
const ANY: &[u8] = b"\x30\x0f\x30\x0d\x06\x0b\x2a\x86\x48\x86\xf7\x0d\x01\x09\x10\x01\x00";

// Any content type but firmware packages.
const BUT_PACKAGES: &[u8] =
    b"\x30\x21\x30\x10\x06\x0b\x2a\x86\x48\x86\xf7\x0d\x01\x09\x10\x01\x10\x0a\x01\x01\x30\x0d\
    \x06\x0b\x2a\x86\x48\x86\xf7\x0d\x01\x09\x10\x01\x00";

// Content type 1.2.4, and 1.2.3.1 with the values 5, 3, NULL and 5 of an attribute of type 1.2.3.
const TWO: &[u8] =
    b"\x30\x22\x30\x04\x06\x02\x2a\x04\x30\x1a\x06\x03\x2a\x03\x01\x30\x13\x30\x11\x06\x02\x2a\
    \x03\x31\x0b\x02\x01\x05\x02\x01\x03\x05\x00\x02\x01\x05";

// Any content type, with the values 4 and 3 of an attribute of type 1.2.3.
const FEW: &[u8] =
    b"\x30\x1f\x30\x1d\x06\x0b\x2a\x86\x48\x86\xf7\x0d\x01\x09\x10\x01\x00\x30\x0e\x30\x0c\x06\
    \x02\x2a\x03\x31\x06\x02\x01\x04\x02\x01\x03";

// Any content type, with the value 5.
const FIVE: &[u8] =
    b"\x30\x1c\x30\x1a\x06\x0b\x2a\x86\x48\x86\xf7\x0d\x01\x09\x10\x01\x00\x30\x0b\x30\x09\x06\
    \x02\x2a\x03\x31\x03\x02\x01\x05";

// Whether these are the lines of a grant, behind an octet that stays.
fn has_lines(alloc: Global, grant: &Grant<'_>, lines: &[u8]) -> bool {
    let mut out = Vec::new(alloc);
    out.push(b'>').is_ok() && put_grant(alloc, &mut out, grant).is_ok() && out.as_slice() == lines
}

// The same of two members.
fn both_have<'a>(alloc: Global, these: &Ccc<'a>, those: &Ccc<'a>, lines: &[u8]) -> bool {
    let Ok(grant) = Grant::everything().with_anchor(alloc, Some(these)) else {
        return false;
    };
    match grant.with_certificate(alloc, Some(those)) {
        Ok(grant) => has_lines(alloc, &grant, lines),
        Err(_) => false,
    }
}

fn explains(alloc: Global, these: &'static [u8], those: &'static [u8], lines: &[u8]) -> bool {
    let Ok(Some(these)) = read_ccc(alloc, these) else {
        return false;
    };
    match read_ccc(alloc, those) {
        Ok(Some(those)) => both_have(alloc, &these, &those, lines),
        _ => false,
    }
}

// Packages from version 7 on, from version 9 on, and none.
const FROM_SEVEN: &[u8] = b">allow 1.2.840.113549.1.9.16.1.16\n\
    attr 1.2.840.113549.1.9.16.2.35 300a300806032a0301020107\ndeny other\n";

const FROM_NINE: &[u8] = b">allow 1.2.840.113549.1.9.16.1.16\n\
    attr 1.2.840.113549.1.9.16.2.35 300a300806032a0301020109\ndeny other\n";

const NO_PACKAGES: &[u8] = b">deny 1.2.840.113549.1.9.16.1.16\nallow other\n";

fn packages_are_explained(alloc: Global) -> bool {
    explains(alloc, SEVEN, ANY, FROM_SEVEN)
        && explains(alloc, SEVEN, NINE, FROM_NINE)
        && explains(alloc, ANY, BUT_PACKAGES, NO_PACKAGES)
}

// The content type 1.2.3.1 comes before 1.2.4, as its contents do and its element doesn't.
const TWO_LINES: &[u8] = b">allow 1.2.3.1\nattr 1.2.3 020103 020105 0500\n\
    allow 1.2.4\ndeny other\n";

const FEW_OF_TWO: &[u8] = b">allow 1.2.3.1\nattr 1.2.3 020103\n\
    allow 1.2.4\nattr 1.2.3 020103 020104\ndeny other\n";

fn lines_ascend(alloc: Global) -> bool {
    explains(alloc, TWO, ANY, TWO_LINES)
        && explains(alloc, FEW, TWO, FEW_OF_TWO)
        && explains(alloc, FEW, ANY, b">allow other\nattr 1.2.3 020103 020104\n")
        && explains(alloc, FEW, FIVE, b">allow other\nattr 1.2.3\n")
}

// Whether these are the lines of a path, of its grant and of a verdict.
fn tells(alloc: Global, grant: &Grant<'_>, refused: Option<Condition>, lines: &[u8]) -> bool {
    let mut out = Vec::new(alloc);
    put_path(alloc, &mut out, 2, 0).is_ok()
        && put_grant(alloc, &mut out, grant).is_ok()
        && put_verdict(alloc, &mut out, refused).is_ok()
        && out.as_slice() == lines
}

// A path that is accepted, and one that fails by condition 28.
const ACCEPTED: &[u8] = b"path 2 anchor 0\nallow other\nverdict accepted\n";

const REFUSED: &[u8] = b"path 2 anchor 0\ndeny other\nverdict refused 28 11\n";

fn verdicts_are_told(alloc: Global) -> bool {
    tells(alloc, &Grant::everything(), None, ACCEPTED)
        && tells(alloc, &Grant::nothing(), Condition::new(28), REFUSED)
}

#[test]
fn paths_are_explained(rt: HostRuntime) {
    assert!(rt; packages_are_explained(rt.alloc()) && lines_ascend(rt.alloc()));
    assert!(rt; verdicts_are_told(rt.alloc()));
}
