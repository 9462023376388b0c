// The record of a module with one anchor, worked by hand from its ASN.1 and X.690.
use module_record::{Module, put_module, read_module};
use std::alloc::{AllocError, Global};

// 1.2.3 with serial number 0001, no communities and types, capacity 16; the anchor is the name root,
// the key identifier A1, and the key of one level of H5 and W4 with I and T[1] 07 .. 07; the module's
// key is of H5 and W4 with SEED and I 01 .. 01. 00 follows the record.
const RECORD: &[u8; 168] =
    b"\x30\x81\xa4\x02\x01\x01\x06\x02\x2a\x03\x04\x02\x00\x01\x30\x00\x30\x00\x02\x01\x10\
    \x30\x54\x30\x52\x30\x0f\x31\x0d\x30\x0b\x06\x03\x55\x04\x03\x0c\x04\x72\x6f\x6f\x74\
    \x04\x01\xa1\x04\x3c\x00\x00\x00\x01\x00\x00\x00\x05\x00\x00\x00\x03\
    \x07\x07\x07\x07\x07\x07\x07\x07\x07\x07\x07\x07\x07\x07\x07\x07\
    \x07\x07\x07\x07\x07\x07\x07\x07\x07\x07\x07\x07\x07\x07\x07\x07\
    \x07\x07\x07\x07\x07\x07\x07\x07\x07\x07\x07\x07\x07\x07\x07\x07\
    \x30\x3a\x02\x01\x05\x02\x01\x03\x04\x20\
    \x01\x01\x01\x01\x01\x01\x01\x01\x01\x01\x01\x01\x01\x01\x01\x01\
    \x01\x01\x01\x01\x01\x01\x01\x01\x01\x01\x01\x01\x01\x01\x01\x01\
    \x04\x10\x01\x01\x01\x01\x01\x01\x01\x01\x01\x01\x01\x01\x01\x01\x01\x01\
    \x00";

// Whether octets are read as a module's record, or aren't, where one octet of the record is another.
fn tells(alloc: Global, place: usize, octet: u8, answer: bool) -> bool {
    let mut octets = *RECORD;
    if let Some(at) = octets.get_mut(place) {
        *at = octet;
    }
    match read_module(alloc, &octets) {
        Ok(read) => read.is_some() == answer,
        Err(_) => false,
    }
}

// The record as it is, another key identifier, and eight levels; then a key's record, no capacity, a
// subject that is a SET, nine levels, and H15.
fn tells_a_record(alloc: Global) -> bool {
    tells(alloc, 0, 0x30, true)
        && tells(alloc, 44, 0xa2, true)
        && tells(alloc, 50, 0x08, true)
        && tells(alloc, 5, 0x02, false)
        && tells(alloc, 20, 0x00, false)
        && tells(alloc, 25, 0x31, false)
        && tells(alloc, 50, 0x09, false)
        && tells(alloc, 111, 0x07, false)
}

// Appends the record of the module that the octets begin with, or nothing where they begin with none.
fn put_again(alloc: Global, octets: &[u8], out: &mut Vec<u8>) -> Result<(), AllocError> {
    let Some(read) = read_module(alloc, octets)? else {
        return Ok(());
    };
    put_module(alloc, out, &read)
}

// Whether the record is put as it was read, behind EE.
fn puts_what_it_reads(alloc: Global) -> bool {
    let mut out = Vec::new(alloc);
    out.push(0xee).is_ok()
        && put_again(alloc, RECORD, &mut out).is_ok()
        && out.first() == Some(&0xee)
        && out.get(1..) == RECORD.get(..167)
}

// The hardware type, the serial number, the capacity, and how many anchors there are.
fn has_the_fields(read: &Module) -> bool {
    read.hw_type.octets() == [0x2a, 0x03].as_slice()
        && read.serial.octets() == [0x00, 0x01].as_slice()
        && read.capacity == 16
        && read.anchors.as_slice().len() == 1
}

fn tells_the_fields(alloc: Global) -> bool {
    match read_module(alloc, RECORD) {
        Ok(Some(read)) => has_the_fields(&read),
        _ => false,
    }
}

#[test]
fn reads_and_puts_module_records(rt: HostRuntime) {
    assert!(rt; tells_a_record(rt.alloc()));
    assert!(rt; puts_what_it_reads(rt.alloc()) && tells_the_fields(rt.alloc()));
}
