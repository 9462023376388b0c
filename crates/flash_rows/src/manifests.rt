// Manifests worked by hand from their ASN.1 and RFC 4108, section 2.2.3.
use bank_layout::{manifests_fit, put_manifest, read_manifest};
use std::alloc::{AllocError, Global};

// Sequence 1, and 1.2.3.1 version 7 with the image "hello" in block 0.
const HELLO: &[u8] = b"\x30\x41\x02\x01\x02\x02\x01\x01\x30\x37\x30\x35\
    \x30\x08\x06\x03\x2a\x03\x01\x02\x01\x07\x04\x20\
    \x2c\xf2\x4d\xba\x5f\xb0\xa3\x0e\x26\xe8\x3b\x2a\xc5\xb9\xe2\x9e\
    \x1b\x16\x1e\x5c\x1f\xa7\x42\x5e\x73\x04\x33\x62\x93\x8b\x98\x24\
    \x02\x01\x05\x04\x02\x00\x00\x30\x00\x30\x00";

// The same with type 1, which needs 1.2.3.2 version 4.
const NEEDY: &[u8] = b"\x30\x4e\x02\x01\x02\x02\x01\x01\x30\x44\x30\x42\
    \x30\x08\x06\x03\x2a\x03\x01\x02\x01\x07\x04\x20\
    \x2c\xf2\x4d\xba\x5f\xb0\xa3\x0e\x26\xe8\x3b\x2a\xc5\xb9\xe2\x9e\
    \x1b\x16\x1e\x5c\x1f\xa7\x42\x5e\x73\x04\x33\x62\x93\x8b\x98\x24\
    \x02\x01\x05\x04\x02\x00\x00\x02\x01\x01\
    \x30\x0a\x30\x08\x06\x03\x2a\x03\x02\x02\x01\x04\x30\x00";

// The first in format 1.
const OLDER: &[u8] = b"\x30\x3f\x02\x01\x01\x02\x01\x01\x30\x35\x30\x33\
    \x30\x08\x06\x03\x2a\x03\x01\x02\x01\x07\x04\x20\
    \x2c\xf2\x4d\xba\x5f\xb0\xa3\x0e\x26\xe8\x3b\x2a\xc5\xb9\xe2\x9e\
    \x1b\x16\x1e\x5c\x1f\xa7\x42\x5e\x73\x04\x33\x62\x93\x8b\x98\x24\
    \x02\x01\x05\x04\x02\x00\x00\x30\x00";

// What is written of the manifest that octets begin with, where they do.
fn written(alloc: Global, octets: &[u8]) -> Result<Option<Vec<u8>>, AllocError> {
    manifests_fit();
    let Some((sequence, state)) = read_manifest(alloc, octets, 16)? else {
        return Ok(None);
    };
    let mut out = Vec::new(alloc);
    put_manifest(alloc, &mut out, sequence, &state)?;
    Ok(Some(out))
}

// Whether that is this text.
fn writes(alloc: Global, octets: &[u8], text: &[u8]) -> bool {
    match written(alloc, octets) {
        Ok(Some(out)) => out.as_slice() == text,
        Ok(None) => false,
        Err(_) => false,
    }
}

// Without a type, with a type and a need, and of format 1.
#[test]
fn a_manifest_is_written_in_format_2(rt: HostRuntime) {
    let alloc = rt.alloc();
    assert!(rt; writes(alloc, HELLO, HELLO) && writes(alloc, NEEDY, NEEDY));
    assert!(rt; writes(alloc, OLDER, HELLO));
}

// Whether octets begin with a manifest for a capacity, or don't.
fn is_found(alloc: Global, octets: &[u8], capacity: u32, found: bool) -> bool {
    match read_manifest(alloc, octets, capacity) {
        Ok(read) => read.is_some() == found,
        Err(_) => false,
    }
}

// At most 80 octets with one of them another, and FF behind them.
fn bent(octets: &[u8], place: usize, octet: u8) -> [u8; 81] {
    let mut bent = [0xff; 81];
    let count = octets.len().min(80);
    bent[..count].copy_from_slice(&octets[..count]);
    if let Some(at) = bent.get_mut(place) {
        *at = octet;
    }
    bent
}

// Whether octets begin with a manifest for a capacity of 16 where one of them is another, and FF
// follows, or don't.
fn reads(alloc: Global, octets: &[u8], place: usize, octet: u8, found: bool) -> bool {
    place < octets.len() && is_found(alloc, &bent(octets, place, octet), 16, found)
}

// As it is, of format 3, of format 1 with needs or with a type, and of format 2 without needs.
fn tells_formats(alloc: Global) -> bool {
    reads(alloc, HELLO, 0, 0x30, true)
        && reads(alloc, HELLO, 4, 0x03, false)
        && reads(alloc, HELLO, 4, 0x01, false)
        && reads(alloc, NEEDY, 4, 0x01, false)
        && reads(alloc, OLDER, 4, 0x02, false)
}

// Sequence 0, no octets, the last block, a block behind the last, and a shorter digest.
fn tells_values(alloc: Global) -> bool {
    reads(alloc, HELLO, 7, 0x00, false)
        && reads(alloc, HELLO, 58, 0x00, false)
        && reads(alloc, HELLO, 62, 0x1f, true)
        && reads(alloc, HELLO, 62, 0x20, false)
        && reads(alloc, HELLO, 23, 0x1f, false)
}

// The package of a legacy name of one octet, with 5 octets in this block.
fn package(name: u8, block: u8) -> [u8; 48] {
    let mut octets = [7; 48];
    octets[..7].copy_from_slice(&[0x30, 0x2e, 0x04, 0x01, name, 0x04, 0x20]);
    octets[39..].copy_from_slice(&[0x02, 0x01, 0x05, 0x04, 0x02, 0x00, block, 0x30, 0x00]);
    octets
}

// The manifest of the packages 41 in block 0 and this one.
fn two_packages(name: u8, block: u8) -> [u8; 108] {
    let mut octets = [0; 108];
    octets[..10].copy_from_slice(b"\x30\x6a\x02\x01\x02\x02\x01\x01\x30\x60");
    octets[10..58].copy_from_slice(&package(0x41, 0));
    octets[58..106].copy_from_slice(&package(name, block));
    octets[106] = 0x30;
    octets
}

// Whether that is one for a capacity, or isn't.
fn reads_two(alloc: Global, name: u8, block: u8, capacity: u32, found: bool) -> bool {
    is_found(alloc, &two_packages(name, block), capacity, found)
}

// Two packages, a name twice, a block twice, too many blocks, the greatest module, and a capacity of
// no module.
fn names_and_blocks_are_their_own(alloc: Global) -> bool {
    reads_two(alloc, 0x42, 1, 2, true)
        && reads_two(alloc, 0x41, 1, 2, false)
        && reads_two(alloc, 0x42, 0, 2, false)
        && reads_two(alloc, 0x42, 1, 1, false)
        && reads_two(alloc, 0x42, 1, 4096, true)
        && reads_two(alloc, 0x42, 1, 4097, false)
}

#[test]
fn tells_a_manifest_from_other_octets(rt: HostRuntime) {
    assert!(rt; tells_formats(rt.alloc()) && tells_values(rt.alloc()));
    assert!(rt; names_and_blocks_are_their_own(rt.alloc()));
}
