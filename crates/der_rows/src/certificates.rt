// A certificate by another implementation, and octets worked by hand from RFC 5280, section 4.1, and
// X.690.
use cert_fields::{Cert, KeptCert, TbsCert, read_ccc, read_cert};
use std::alloc::Global;

// OpenSSL 3.0.19: `openssl req -x509 -newkey ed25519 -nodes -subj /CN=a -days 10000 -set_serial 1`.
const ED25519: &[u8] =
    b"\x30\x82\x01\x1b\x30\x81\xce\xa0\x03\x02\x01\x02\x02\x01\x01\x30\x05\x06\x03\x2b\x65\x70\x30\
    \x0c\x31\x0a\x30\x08\x06\x03\x55\x04\x03\x0c\x01\x61\x30\x20\x17\x0d\x32\x36\x31\x32\x30\x31\
    \x30\x38\x34\x32\x35\x35\x5a\x18\x0f\x32\x30\x35\x34\x30\x34\x31\x38\x30\x38\x34\x32\x35\x35\
    \x5a\x30\x0c\x31\x0a\x30\x08\x06\x03\x55\x04\x03\x0c\x01\x61\x30\x2a\x30\x05\x06\x03\x2b\x65\
    \x70\x03\x21\x00\x8e\xc3\x8d\xf4\x8d\xed\xca\xbd\x53\xb8\x76\xf8\x16\x4a\x18\x27\xa4\xc3\xa9\
    \xd9\x2e\xec\xdf\xb8\x76\xa6\xd5\x60\x58\x04\xed\x9c\xa3\x53\x30\x51\x30\x1d\x06\x03\x55\x1d\
    \x0e\x04\x16\x04\x14\x09\x8e\x64\x0c\xdc\x7c\xbf\xe1\xff\x64\x21\x6c\x2b\xa0\x2c\xe1\x70\x79\
    \x72\xb6\x30\x1f\x06\x03\x55\x1d\x23\x04\x18\x30\x16\x80\x14\x09\x8e\x64\x0c\xdc\x7c\xbf\xe1\
    \xff\x64\x21\x6c\x2b\xa0\x2c\xe1\x70\x79\x72\xb6\x30\x0f\x06\x03\x55\x1d\x13\x01\x01\xff\x04\
    \x05\x30\x03\x01\x01\xff\x30\x05\x06\x03\x2b\x65\x70\x03\x41\x00\x6e\x8a\xd6\xeb\x5b\x78\xc9\
    \x98\x0d\x38\x78\xb3\xef\xab\xfa\x2e\xa1\xe6\x73\x12\x1f\x08\x59\xff\xf3\x9e\xdc\x76\x0f\x13\
    \xe9\xaf\xcf\xcb\xe7\xf9\x9a\x04\x1a\xc5\x48\xb6\x62\x94\x8c\x74\xde\x6f\x6f\x92\x4a\x5f\x9e\
    \x66\xfb\x65\x45\xf0\xa7\x3c\x31\x6c\xfc\x0c";

// Its names, the algorithm of its key and its signature, and its key.
const NAME: &[u8] = b"\x30\x0c\x31\x0a\x30\x08\x06\x03\x55\x04\x03\x0c\x01\x61";

const ALGORITHM: &[u8] = b"\x30\x05\x06\x03\x2b\x65\x70";

const KEY: &[u8] =
    b"\x8e\xc3\x8d\xf4\x8d\xed\xca\xbd\x53\xb8\x76\xf8\x16\x4a\x18\x27\xa4\xc3\xa9\xd9\x2e\xec\xdf\
    \xb8\x76\xa6\xd5\x60\x58\x04\xed\x9c";

fn has_its_fields(signed: &TbsCert<'_>) -> bool {
    signed.version == 2
        && signed.serial == b"\x01".as_slice()
        && signed.algorithm == ALGORITHM
        && signed.issuer == NAME
        && signed.from.moment.digits() == 20_261_201_084_255
        && signed.to.moment.digits() == 20_540_418_084_255
        && signed.subject == NAME
        && signed.key_algorithm == ALGORITHM
        && signed.key.octets == KEY
        && signed.extensions == ED25519.get(130..213)
}

fn has_its_parts(cert: &Cert<'_>) -> bool {
    cert.whole == ED25519
        && Some(cert.tbs) == ED25519.get(4..213)
        && cert.algorithm == ALGORITHM
        && cert.signature.unused == 0
        && Some(cert.signature.octets) == ED25519.get(223..)
        && has_its_fields(&cert.signed)
}

fn is_read() -> bool {
    match read_cert(ED25519) {
        Some(cert) => has_its_parts(&cert),
        None => false,
    }
}

fn is_kept() -> bool {
    match KeptCert::new(ED25519) {
        Some(cert) => {
            cert.issuer() == NAME && cert.subject() == NAME && cert.serial() == b"\x01".as_slice()
        }
        None => false,
    }
}

#[test]
fn reads_a_certificate_of_another_implementation(rt: HostRuntime) {
    assert!(rt; is_read() && is_kept());
}

// Certificates of the year 2025, whose serial number is negative, whose names and algorithms are empty
// and whose key and signature have no bits: in v1, with v1 written, and in v3 with extensions.
const V1: &[u8] = b"\x30\x37\x30\x30\x02\x01\x80\x30\x00\x30\x00\
    \x30\x1e\x17\x0d250101000000Z\x17\x0d251231235959Z\
    \x30\x00\x30\x05\x30\x00\x03\x01\x00\x30\x00\x03\x01\x00";

const V1_WRITTEN: &[u8] = b"\x30\x3c\x30\x35\xa0\x03\x02\x01\x00\x02\x01\x80\x30\x00\x30\x00\
    \x30\x1e\x17\x0d250101000000Z\x17\x0d251231235959Z\
    \x30\x00\x30\x05\x30\x00\x03\x01\x00\x30\x00\x03\x01\x00";

const V3: &[u8] = b"\x30\x40\x30\x39\xa0\x03\x02\x01\x02\x02\x01\x80\x30\x00\x30\x00\
    \x30\x1e\x17\x0d250101000000Z\x17\x0d251231235959Z\
    \x30\x00\x30\x05\x30\x00\x03\x01\x00\xa3\x02\x30\x00\x30\x00\x03\x01\x00";

fn is_cert(octets: &[u8]) -> bool {
    read_cert(octets).is_some()
}

#[test]
fn tells_certificates_from_other_octets(rt: HostRuntime) {
    assert!(rt; is_cert(V1) && !is_cert(V1_WRITTEN) && is_cert(V3));
}

// Whether octets are constraints exactly where they should be. By hand from RFC 6010, section 3, and
// X.690.
fn are_constraints(alloc: Global, octets: &[u8], wanted: bool) -> bool {
    match read_ccc(alloc, octets) {
        Ok(constraints) => constraints.is_some() == wanted,
        Err(_) => false,
    }
}

// canSource as cannotSource, and as its DEFAULT written.
const CANNOT_SOURCE: &[u8] = b"\x30\x08\x30\x06\x06\x01\x2a\x0a\x01\x01";

const CAN_SOURCE: &[u8] = b"\x30\x08\x30\x06\x06\x01\x2a\x0a\x01\x00";

const TYPE_TWICE: &[u8] = b"\x30\x0a\x30\x03\x06\x01\x2a\x30\x03\x06\x01\x2a";

const VALUE_TWICE: &[u8] =
    b"\x30\x12\x30\x10\x06\x01\x2a\x30\x0b\x30\x09\x06\x01\x2a\x31\x04\x05\x00\x05\x00";

const ATTRIBUTE_TWICE: &[u8] = b"\x30\x19\x30\x17\x06\x01\x2a\x30\x12\
    \x30\x07\x06\x01\x2a\x31\x02\x05\x00\x30\x07\x06\x01\x2a\x31\x02\x05\x00";

fn tells_constraints(alloc: Global) -> bool {
    are_constraints(alloc, CANNOT_SOURCE, true)
        && are_constraints(alloc, CAN_SOURCE, false)
        && are_constraints(alloc, TYPE_TWICE, false)
        && are_constraints(alloc, VALUE_TWICE, true)
        && are_constraints(alloc, ATTRIBUTE_TWICE, false)
}

#[test]
fn tells_constraints_from_other_octets(rt: HostRuntime) {
    assert!(rt; tells_constraints(rt.alloc()));
}
