use lms_sign::SignKey;
use lms_verify::{LmsKind, OtsKind};
use module_record::{put_key_record, read_key_record};
use std::alloc::Global;

// The record of the key of kinds H5 and W4 with SEED 01 .. 01 and I 02 .. 02, by its ASN.1. 00 follows
// the record.
const RECORD: &[u8; 66] = b"\x30\x3f\x02\x01\x02\
    \x30\x3a\x02\x01\x05\x02\x01\x03\
    \x04\x20\x01\x01\x01\x01\x01\x01\x01\x01\x01\x01\x01\x01\x01\x01\x01\x01\
    \x01\x01\x01\x01\x01\x01\x01\x01\x01\x01\x01\x01\x01\x01\x01\x01\
    \x04\x10\x02\x02\x02\x02\x02\x02\x02\x02\x02\x02\x02\x02\x02\x02\x02\x02\
    \x00";

// Whether octets are read as a key's record, or aren't, where one octet of the record is another.
fn tells(place: usize, octet: u8, answer: bool) -> bool {
    let mut octets = *RECORD;
    if let Some(at) = octets.get_mut(place) {
        *at = octet;
    }
    read_key_record(&octets).is_some() == answer
}

// The record as it is, H10, W1, and another SEED; then a module's record, H15, no one-time keys, a
// shorter SEED, and a shorter key.
fn tells_a_record() -> bool {
    tells(0, 0x30, true)
        && tells(9, 0x06, true)
        && tells(12, 0x01, true)
        && tells(15, 0xff, true)
        && tells(4, 0x01, false)
        && tells(9, 0x07, false)
        && tells(12, 0x05, false)
        && tells(14, 0x1f, false)
        && tells(6, 0x39, false)
}

// Whether the record is put behind what stands there.
fn is_put(alloc: Global) -> bool {
    let key = SignKey {
        seed: [0x01; 32],
        id: [0x02; 16],
        kind: LmsKind::H5,
        ots: OtsKind::W4,
    };
    let mut out = Vec::new(alloc);
    out.push(0xee).is_ok()
        && put_key_record(alloc, &mut out, &key).is_ok()
        && out.first() == Some(&0xee)
        && out.get(1..) == RECORD.get(..65)
}

// Whether the key is read back with octets behind it.
fn is_read_back() -> bool {
    match read_key_record(RECORD) {
        Some(read) => {
            read.kind == LmsKind::H5
                && read.ots == OtsKind::W4
                && read.seed == [0x01; 32]
                && read.id == [0x02; 16]
        }
        None => false,
    }
}

#[test]
fn reads_and_puts_key_records(rt: HostRuntime) {
    assert!(rt; tells_a_record());
    assert!(rt; is_put(rt.alloc()) && is_read_back());
}
