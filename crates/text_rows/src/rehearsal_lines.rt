use der_core::{Condition, Moment, read_oid};
use package_attrs::PackageName;
use report_text::{put_accepted, put_refused, put_rehearsal_head};
use std::alloc::Global;

fn is_begun(alloc: Global, digits: u64, line: &[u8]) -> bool {
    let Some(at) = Moment::new(digits) else {
        return false;
    };
    let mut out = Vec::new(alloc);
    put_rehearsal_head(alloc, &mut out, at).is_ok() && out.as_slice() == line
}

// 1.2.3.1 in this version.
fn is_accepted(alloc: Global, version: u128, line: &[u8]) -> bool {
    let Some(id) = read_oid(&[0x2a, 0x03, 0x01]) else {
        return false;
    };
    let name = PackageName::Preferred { id, version };
    let mut out = Vec::new(alloc);
    put_accepted(alloc, &mut out, &name).is_ok() && out.as_slice() == line
}

fn is_refused(alloc: Global, number: u8, line: &[u8]) -> bool {
    let Some(condition) = Condition::new(number) else {
        return false;
    };
    let mut out = Vec::new(alloc);
    put_refused(alloc, &mut out, condition).is_ok() && out.as_slice() == line
}

// Year 0000 has its four digits too. The codes of RFC 4108, section 4.1.3: 1 decodeFailure,
// 27 wrongHardware and 99 otherError.
#[test]
fn lines_of_a_rehearsal_are_put(rt: HostRuntime) {
    let alloc = rt.alloc();
    assert!(rt; is_begun(alloc, 20_250_101_000_000, b"rehearsal at 20250101000000\n"));
    assert!(rt; is_begun(alloc, 131_000_009, b"rehearsal at 00000131000009\n"));
    assert!(rt; is_accepted(alloc, 7, b"accepted preferred 1.2.3.1 7\n"));
    assert!(rt; is_refused(alloc, 1, b"refused 1 1\n"));
    assert!(rt; is_refused(alloc, 30, b"refused 30 27\n"));
    assert!(rt; is_refused(alloc, 41, b"refused 41 99\n"));
}
