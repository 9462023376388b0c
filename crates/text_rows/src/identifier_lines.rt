use package_attrs::read_identifier;
use report_text::put_identifier_line;
use std::alloc::Global;

// Whether this is the line of the identifier that the octets are.
fn is_put(alloc: Global, octets: &[u8], line: &[u8]) -> bool {
    let Some(id) = read_identifier(octets) else {
        return false;
    };
    let mut out = Vec::new(alloc);
    put_identifier_line(alloc, &mut out, &id).is_ok() && out.as_slice() == line
}

// Each first number (X.690, section 8.19.4), and both kinds.
#[test]
fn puts_a_line(rt: HostRuntime) {
    let alloc = rt.alloc();
    let itu = b"\x30\x09\x30\x07\x06\x02\x27\x03\x02\x01\x00";
    let iso = b"\x30\x09\x30\x07\x06\x01\x4f\x02\x02\x00\x80";
    let joint = b"\x30\x0b\x30\x06\x06\x01\x50\x02\x01\x01\x02\x01\x02";
    let legacy = b"\x30\x08\x04\x02\x00\xff\x04\x02\x0a\xb0";
    assert!(rt; is_put(alloc, itu, b"preferred 0.39.3 0\n"));
    assert!(rt; is_put(alloc, iso, b"preferred 1.39 128\n"));
    assert!(rt; is_put(alloc, joint, b"preferred 2.0 1 stale 2\n"));
    assert!(rt; is_put(alloc, legacy, b"legacy 00ff stale 0ab0\n"));
}
