use der_core::{Moment, read_oid};
use der_write::{
    head_size, put_head, put_oid, put_set_sorted, put_time, put_tlv, put_u128, sorted_contents,
};
use std::alloc::Global;

fn has_head(alloc: Global, size: u32, octets: &[u8]) -> bool {
    let mut head = Vec::new(alloc);
    put_head(alloc, &mut head, 0x04, size).is_ok()
        && head.as_slice() == octets
        && head_size(size) == octets.len()
}

// Both sides of the borders between two forms of the length, by X.690, sections 8.1.3.4, 8.1.3.5
// and 10.1.
fn heads_are_written(alloc: Global) -> bool {
    has_head(alloc, 127, b"\x04\x7f")
        && has_head(alloc, 128, b"\x04\x81\x80")
        && has_head(alloc, 65_536, b"\x04\x83\x01\x00\x00")
}

fn is_number(alloc: Global, value: u128, octets: &[u8]) -> bool {
    let mut out = Vec::new(alloc);
    put_u128(alloc, &mut out, value).is_ok() && out.as_slice() == octets
}

fn is_identifier(alloc: Global, contents: &[u8], octets: &[u8]) -> bool {
    let Some(id) = read_oid(contents) else {
        return false;
    };
    let mut out = Vec::new(alloc);
    put_oid(alloc, &mut out, &id).is_ok() && out.as_slice() == octets
}

fn is_time(alloc: Global, digits: u64, octets: &[u8]) -> bool {
    let Some(moment) = Moment::new(digits) else {
        return false;
    };
    let mut out = Vec::new(alloc);
    put_time(alloc, &mut out, moment).is_ok() && out.as_slice() == octets
}

// X.690, sections 8.3 and 8.19, and each form of a time, by RFC 5280, section 4.1.2.5.
fn values_are_written(alloc: Global) -> bool {
    is_number(alloc, 127, b"\x02\x01\x7f")
        && is_number(alloc, 128, b"\x02\x02\x00\x80")
        && is_identifier(alloc, b"\x2a\x03", b"\x06\x02\x2a\x03")
        && is_time(alloc, 20_491_231_235_959, b"\x17\x0d491231235959Z")
        && is_time(alloc, 20_500_101_000_000, b"\x18\x0f20500101000000Z")
}

fn element_is_written(alloc: Global) -> bool {
    let mut out = Vec::new(alloc);
    put_tlv(alloc, &mut out, 0x04, b"\x07").is_ok() && out.as_slice() == b"\x04\x01\x07".as_slice()
}

// Parts that come out of order, by X.690, section 11.6.
fn set_is_written(alloc: Global) -> bool {
    let (Ok(later), Ok(first)) = (b"\x04\x00".to_vec(alloc), b"\x02\x01\x05".to_vec(alloc)) else {
        return false;
    };
    let parts = [later, first];
    let mut set = Vec::new(alloc);
    match sorted_contents(alloc, &parts) {
        Ok(contents) => {
            put_set_sorted(alloc, &mut set, &parts).is_ok()
                && set.as_slice() == b"\x31\x05\x02\x01\x05\x04\x00".as_slice()
                && &set[2..] == contents.as_slice()
        }
        Err(_) => false,
    }
}

#[test]
fn texts_are_written(rt: HostRuntime) {
    assert!(rt; heads_are_written(rt.alloc()));
    assert!(rt; values_are_written(rt.alloc()));
    assert!(rt; element_is_written(rt.alloc()));
    assert!(rt; set_is_written(rt.alloc()));
}
