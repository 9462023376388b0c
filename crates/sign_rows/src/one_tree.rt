// Rows of one tree: signatures, the tables of kinds, and the words that a signature is made of.
use crate::vectors::{LOWER_KEY, LOWER_SIGNATURE, MESSAGE};
use lms_verify::{
    LmsKey, LmsKind, OtsKind, chain, checked_value, digit, inner_value, leaf_value, lms_check,
    lms_key, message_value, signature_size,
};

// Whether signatures under the lower key of the standard have this size.
fn has_size(size: usize) -> bool {
    match lms_key(LOWER_KEY) {
        Some(key) => signature_size(key.kind, key.ots) == size,
        None => false,
    }
}

// Whether the answer under that key is this one, for a message in two parts.
fn answers(first: &[u8], rest: &[u8], signature: &[u8], holds: bool) -> bool {
    match lms_key(LOWER_KEY) {
        Some(key) => lms_check(&key, first, rest, signature) == holds,
        None => false,
    }
}

// Its signature with an octet behind it.
fn longer() -> [u8; 1293] {
    let mut octets = [0; 1293];
    octets[..1292].copy_from_slice(LOWER_SIGNATURE);
    octets
}

// The message cut at any place, its parts in the other order, and an octet left over and one missing.
fn the_standard_holds() -> bool {
    let (first, rest) = MESSAGE.split_at(40);
    has_size(1292)
        && answers(MESSAGE, b"", LOWER_SIGNATURE, true)
        && answers(first, rest, LOWER_SIGNATURE, true)
        && answers(rest, first, LOWER_SIGNATURE, false)
        && answers(MESSAGE, b"", &longer(), false)
        && answers(MESSAGE, b"", &LOWER_SIGNATURE[..1291], false)
}

// Its signature with the lowest bit of one octet flipped.
fn bent(at: usize) -> [u8; 1292] {
    let mut octets = *LOWER_SIGNATURE;
    if let Some(octet) = octets.get_mut(at) {
        *octet ^= 1;
    }
    octets
}

// Whether the answer to that is this one.
fn bends(at: usize, holds: bool) -> bool {
    answers(MESSAGE, b"", &bent(at), holds)
}

// q, the LM-OTS number, the last octet of C, the first of y[0] and the last of y[33], the LMS number,
// the first octet of path[0] and the last of path[4]
fn bent_ones_do_not_hold() -> bool {
    bends(3, false)
        && bends(7, false)
        && bends(39, false)
        && bends(40, false)
        && bends(1127, false)
        && bends(1131, false)
        && bends(1132, false)
        && bends(1291, false)
}

// The roots that octets 5A as a signature of "message" lead to from leaf 31, which is the last of the
// tree, and from 32. `tests/lms_vectors.py` at the top of the repository has them.
const LAST_ROOT: [u8; 32] = *b"\
    \xcb\x5f\xcf\x54\x30\xa9\x31\x71\xc1\x57\x7a\x49\x0c\x0e\xc9\xd1\
    \xad\x04\x5b\xb7\xd7\x84\x34\x66\xd6\x62\x16\x29\x53\xfe\xbd\x79";

const NEXT_ROOT: [u8; 32] = *b"\
    \x63\xe6\xe1\xfb\x6d\x7e\x0e\x34\x4c\xfd\x23\x68\xc8\xa9\xf2\x0c\
    \x26\x05\x62\xed\x5b\x3d\x68\xef\x44\x12\x9d\x5d\x5e\x30\x22\x1b";

// Whether the answer to those octets, by leaf `q`, under the key with this root is this one.
fn leads_from(q: u8, root: [u8; 32], holds: bool) -> bool {
    let key = LmsKey {
        kind: LmsKind::H5,
        ots: OtsKind::W8,
        id: [0, 1, 2, 3, 4, 5, 6, 7, 8, 9, 10, 11, 12, 13, 14, 15],
        root,
    };
    let mut signature = [0x5a; 1292];
    signature[..8].copy_from_slice(&[0, 0, 0, q, 0, 0, 0, 4]);
    signature[1128..1132].copy_from_slice(&[0, 0, 0, 5]);
    lms_check(&key, b"message", b"", &signature) == holds
}

// 32 is refused for being none of its leaves alone.
fn leaves_outside_do_not_hold() -> bool {
    leads_from(31, LAST_ROOT, true) && leads_from(32, NEXT_ROOT, false)
}

#[test]
fn signatures_of_one_tree(rt: HostRuntime) {
    assert!(rt; the_standard_holds());
    assert!(rt; bent_ones_do_not_hold());
    assert!(rt; leaves_outside_do_not_hold());
}

// The key with these typecodes, and sevens.
fn key_of(number: u8, ots_number: u8) -> Option<LmsKey> {
    let mut octets = [7; 56];
    octets[..8].copy_from_slice(&[0, 0, 0, number, 0, 0, 0, ots_number]);
    lms_key(&octets)
}

// Whether there is none.
fn is_unknown(number: u8, ots_number: u8) -> bool {
    key_of(number, ots_number).is_none()
}

// Whether a kind of tree is read from its typecode.
fn reads_tree(kind: LmsKind, number: u8) -> bool {
    match key_of(number, 1) {
        Some(key) => key.kind == kind,
        None => false,
    }
}

// Whether it has this row of the table.
fn is_tree(kind: LmsKind, number: u8, height: u32, leaves: u32) -> bool {
    reads_tree(kind, number)
        && kind.number() == u32::from(number)
        && kind.height() == height
        && kind.leaf_count() == leaves
}

// Whether a kind of one-time keys is read from its typecode.
fn reads_one_time(ots: OtsKind, number: u8) -> bool {
    match key_of(5, number) {
        Some(key) => key.ots == ots,
        None => false,
    }
}

// Whether it has this row of the table.
fn is_one_time(ots: OtsKind, number: u8, width: usize, chains: usize) -> bool {
    reads_one_time(ots, number)
        && ots.number() == u32::from(number)
        && ots.width() == width
        && ots.chain_count() == chains
}

// The rows of the tables of RFC 8554, sections 5.1 and 4.1.
fn kinds_have_their_rows() -> bool {
    is_tree(LmsKind::H5, 5, 5, 32)
        && is_tree(LmsKind::H10, 6, 10, 1024)
        && is_tree(LmsKind::H15, 7, 15, 32_768)
        && is_tree(LmsKind::H20, 8, 20, 1_048_576)
        && is_tree(LmsKind::H25, 9, 25, 33_554_432)
        && is_one_time(OtsKind::W1, 1, 1, 265)
        && is_one_time(OtsKind::W2, 2, 2, 133)
        && is_one_time(OtsKind::W4, 3, 4, 67)
        && is_one_time(OtsKind::W8, 4, 8, 34)
}

// The typecodes beside them.
fn others_are_unknown() -> bool {
    is_unknown(4, 1) && is_unknown(10, 1) && is_unknown(5, 0) && is_unknown(5, 5)
}

#[test]
fn kinds_are_those_of_the_tables(rt: HostRuntime) {
    assert!(rt; kinds_have_their_rows());
    assert!(rt; others_are_unknown());
}

// Whether these are the two octets of the checksum of 32 octets 00.
fn is_greatest_checksum(ots: OtsKind, first: u8, last: u8) -> bool {
    let checked = checked_value(ots, &[0; 32]);
    checked[32] == first && checked[33] == last
}

// Digits of RFC 8554, section 3.1.3, and checksums of section 4.4.
fn digits_are_computed() -> bool {
    digit(OtsKind::W1, &[0x12, 0x34], 7) == 0
        && digit(OtsKind::W4, &[0x12, 0x34], 0) == 1
        && is_greatest_checksum(OtsKind::W1, 0x80, 0)
        && is_greatest_checksum(OtsKind::W2, 0x60, 0)
        && is_greatest_checksum(OtsKind::W4, 0x3c, 0)
        && is_greatest_checksum(OtsKind::W8, 0x1f, 0xe0)
}

// An identifier and a value, and hashes of them as `tests/lms_vectors.py` makes them.
const ID: [u8; 16] = *b"\x00\x01\x02\x03\x04\x05\x06\x07\x08\x09\x0a\x0b\x0c\x0d\x0e\x0f";

const VALUE: [u8; 32] = *b"\
    \x40\x41\x42\x43\x44\x45\x46\x47\x48\x49\x4a\x4b\x4c\x4d\x4e\x4f\
    \x50\x51\x52\x53\x54\x55\x56\x57\x58\x59\x5a\x5b\x5c\x5d\x5e\x5f";

const END: [u8; 32] = *b"\
    \xcd\x8e\xe9\x91\x27\xcf\xf7\x75\xd2\xde\x4c\xcd\x33\x8e\x39\x1d\
    \xee\xa3\xf0\xdc\x67\xaa\xd5\x9b\xdd\x98\xf9\x6c\x44\x33\x3b\x3e";

const LEAF: [u8; 32] = *b"\
    \x0f\xce\x71\x47\x59\x5f\x18\xdb\x76\x2f\x57\x2f\x5a\x8b\xe9\x6b\
    \xe6\xa2\xdd\x44\x5b\x7f\xaa\x09\x04\xa8\xb9\x3f\xb6\xae\x8f\x88";

const INNER: [u8; 32] = *b"\
    \x50\x20\xfb\x0c\x20\xcd\xf9\xe6\xf3\x5c\x72\x6b\x62\x33\xcf\x19\
    \xa2\xd0\x6e\x16\xc7\xf0\xf8\xa9\x32\x30\x4b\xb8\x5a\x3e\x0c\x4f";

const HASHED: [u8; 32] = *b"\
    \xf5\xd8\xe8\x51\xea\xd1\xd3\xfc\xe1\x43\x43\x3c\x91\xa0\xed\x3d\
    \x32\xea\x39\x01\x88\xae\x2c\x23\xee\xee\x0e\xcd\x1a\xaa\x79\x4f";

fn hashes_are_computed() -> bool {
    chain(&ID, 5, 66, 3, 15, &VALUE) == END
        && leaf_value(&ID, 37, &VALUE) == LEAF
        && inner_value(&ID, 18, &VALUE, &[0x5a; 32]) == INNER
        && message_value(&ID, 9, &VALUE, b"a", b"b") == HASHED
}

#[test]
fn words_are_computed(rt: HostRuntime) {
    assert!(rt; digits_are_computed());
    assert!(rt; hashes_are_computed());
}
