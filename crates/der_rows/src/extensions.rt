// What the extensions of a certificate by another implementation say, and octets worked by hand from
// RFC 5280, section 4.2, and X.690; and a trust anchor.
use cert_fields::{
    Anchor, CaRule, Ccc, CccEntry, Cert, Extensions, KeptCert, TbsCert, read_cert, read_extensions,
};
use der_core::Octets64;
use std::alloc::Global;

// OpenSSL 3.0.19: `openssl req -x509 -newkey ed25519 -nodes -config c.cnf -days 10000 -set_serial 7`,
// where c.cnf has CN=a and these extensions: subjectKeyIdentifier=hash,
// authorityKeyIdentifier=keyid:always,issuer:always, basicConstraints=critical,CA:TRUE,pathlen:3,
// keyUsage=critical,digitalSignature,keyCertSign,cRLSign, extendedKeyUsage=critical,codeSigning,
// subjectAltName=DNS:a, and 1.3.6.1.5.5.7.1.18=DER:.. with the last octets of CONSTRAINTS, which are
// worked by hand from RFC 6010, section 3: firmware packages whose identifier is 1.2.3 in version 7,
// and content of any other type not to be signed first.
const ED25519: &[u8] =
    b"\x30\x82\x01\xbb\x30\x82\x01\x6d\xa0\x03\x02\x01\x02\x02\x01\x07\x30\x05\x06\x03\x2b\x65\x70\
    \x30\x0c\x31\x0a\x30\x08\x06\x03\x55\x04\x03\x0c\x01\x61\x30\x20\x17\x0d\x32\x36\x31\x32\x30\
    \x31\x31\x31\x32\x34\x32\x32\x5a\x18\x0f\x32\x30\x35\x34\x30\x34\x31\x38\x31\x31\x32\x34\x32\
    \x32\x5a\x30\x0c\x31\x0a\x30\x08\x06\x03\x55\x04\x03\x0c\x01\x61\x30\x2a\x30\x05\x06\x03\x2b\
    \x65\x70\x03\x21\x00\xf2\xde\x36\x3f\xed\xde\xd3\x02\x9c\x86\xdb\xf6\x0c\x33\x3a\x89\x8a\x3d\
    \x39\xdd\xa3\xdd\xb9\x2d\x95\x50\x3e\xd0\xae\xe4\x56\x5b\xa3\x81\xf1\x30\x81\xee\x30\x1d\x06\
    \x03\x55\x1d\x0e\x04\x16\x04\x14\xe6\x8a\xc3\xa2\xbc\x73\x69\xc8\x61\xca\xc4\x45\xf6\x47\x6a\
    \xe0\x4b\xc3\x7c\xca\x30\x34\x06\x03\x55\x1d\x23\x04\x2d\x30\x2b\x80\x14\xe6\x8a\xc3\xa2\xbc\
    \x73\x69\xc8\x61\xca\xc4\x45\xf6\x47\x6a\xe0\x4b\xc3\x7c\xca\xa1\x10\xa4\x0e\x30\x0c\x31\x0a\
    \x30\x08\x06\x03\x55\x04\x03\x0c\x01\x61\x82\x01\x07\x30\x12\x06\x03\x55\x1d\x13\x01\x01\xff\
    \x04\x08\x30\x06\x01\x01\xff\x02\x01\x03\x30\x0e\x06\x03\x55\x1d\x0f\x01\x01\xff\x04\x04\x03\
    \x02\x01\x86\x30\x16\x06\x03\x55\x1d\x25\x01\x01\xff\x04\x0c\x30\x0a\x06\x08\x2b\x06\x01\x05\
    \x05\x07\x03\x03\x30\x0c\x06\x03\x55\x1d\x11\x04\x05\x30\x03\x82\x01\x61\x30\x4d\x06\x08\x2b\
    \x06\x01\x05\x05\x07\x01\x12\x04\x41\x30\x3f\x30\x2b\x06\x0b\x2a\x86\x48\x86\xf7\x0d\x01\x09\
    \x10\x01\x10\x30\x1c\x30\x1a\x06\x0b\x2a\x86\x48\x86\xf7\x0d\x01\x09\x10\x02\x23\x31\x0b\x30\
    \x09\x30\x07\x06\x02\x2a\x03\x02\x01\x07\x30\x10\x06\x0b\x2a\x86\x48\x86\xf7\x0d\x01\x09\x10\
    \x01\x00\x0a\x01\x01\x30\x05\x06\x03\x2b\x65\x70\x03\x41\x00\xe7\x8e\x1a\xf2\x3b\x0c\x4d\x89\
    \x14\x5f\x40\x12\x47\xd2\x73\xc3\xa2\x17\x74\x2b\x1f\x84\xc5\x19\x61\x84\x4b\x90\x74\x0b\xa6\
    \x69\xc9\x10\xbd\xae\xf3\xfc\xf0\xb5\x84\x2f\xcc\x52\xc8\xd4\x1e\xdb\x73\xe1\x96\xad\x2f\x28\
    \xf5\x29\xee\x74\x6c\x14\x39\xa9\xf3\x04";

const CONSTRAINTS: &[u8] =
    b"\x30\x3f\x30\x2b\x06\x0b\x2a\x86\x48\x86\xf7\x0d\x01\x09\x10\x01\x10\x30\x1c\x30\x1a\
    \x06\x0b\x2a\x86\x48\x86\xf7\x0d\x01\x09\x10\x02\x23\x31\x0b\x30\x09\x30\x07\x06\x02\
    \x2a\x03\x02\x01\x07\x30\x10\x06\x0b\x2a\x86\x48\x86\xf7\x0d\x01\x09\x10\x01\x00\x0a\
    \x01\x01";

// The key identifier, the SHA-1 of the key, and the listed identifier.
const KEY: &[u8] =
    b"\xe6\x8a\xc3\xa2\xbc\x73\x69\xc8\x61\xca\xc4\x45\xf6\x47\x6a\xe0\x4b\xc3\x7c\xca";

const FIRMWARE_PACKAGE: &[u8] = b"\x2a\x86\x48\x86\xf7\x0d\x01\x09\x10\x01\x10";

const LISTED: &[u8] = b"\x30\x09\x30\x07\x06\x02\x2a\x03\x02\x01\x07";

fn is_rule(rule: Option<CaRule>) -> bool {
    match rule {
        Some(rule) => rule.ca && rule.path_len == Some(3),
        None => false,
    }
}

// Whether an entry is for packages that may be signed first, with one listed value.
fn is_for_packages(entry: &CccEntry<'_>) -> bool {
    let mut attributes = entry.attributes.iter();
    match attributes.next() {
        Some(one) => one.values == LISTED && attributes.next().is_none() && entry.can_source,
        None => false,
    }
}

fn are_those(constraints: &Ccc<'_>) -> bool {
    let mut entries = constraints.entries();
    let (Some(first), Some(other)) = (entries.next(), entries.next()) else {
        return false;
    };
    is_for_packages(&first)
        && first.content.octets() == FIRMWARE_PACKAGE
        && !other.can_source
        && other.attributes.rest().is_empty()
        && entries.next().is_none()
}

// digitalSignature, keyCertSign and cRLSign are bits 0, 5 and 6.
fn say_all(extensions: &Extensions<'_>) -> bool {
    let key = Octets64::new(KEY);
    let Some(constraints) = &extensions.constraints else {
        return false;
    };
    extensions.subject_key == key
        && extensions.authority_key == key
        && extensions.usage == Some(0b110_0001)
        && is_rule(extensions.ca)
        && are_those(&constraints.again())
}

fn is_read_whole(alloc: Global) -> bool {
    let Some(cert) = KeptCert::new(ED25519) else {
        return false;
    };
    match cert.extensions(alloc) {
        Ok(Some(extensions)) => say_all(&extensions),
        Ok(None) => false,
        Err(_) => false,
    }
}

#[test]
fn reads_extensions_of_another_implementation(rt: HostRuntime) {
    assert!(rt; is_read_whole(rt.alloc()));
}

// The certificate with these octets in place of its own extensions.
fn with_extensions(octets: &[u8]) -> Option<Cert<'_>> {
    let Some(cert) = read_cert(ED25519) else {
        return None;
    };
    let signed = TbsCert {
        extensions: Some(octets),
        ..cert.signed
    };
    Some(Cert { signed, ..cert })
}

// Whether extensions of these octets, a whole SEQUENCE, read exactly where they should.
fn are_read(alloc: Global, octets: &[u8], wanted: bool) -> bool {
    let Some(cert) = with_extensions(octets) else {
        return false;
    };
    match read_extensions(alloc, &cert) {
        Ok(extensions) => extensions.is_some() == wanted,
        Err(_) => false,
    }
}

// Whether they read and say this key usage.
fn say_usage(alloc: Global, octets: &[u8], usage: u16) -> bool {
    let Some(cert) = with_extensions(octets) else {
        return false;
    };
    match read_extensions(alloc, &cert) {
        Ok(Some(extensions)) => extensions.usage == Some(usage),
        Ok(None) => false,
        Err(_) => false,
    }
}

const UNKNOWN: &[u8] = b"\x30\x07\x30\x05\x06\x01\x2a\x04\x00";

const UNKNOWN_CRITICAL: &[u8] = b"\x30\x0a\x30\x08\x06\x01\x2a\x01\x01\xff\x04\x00";

const UNKNOWN_TWICE: &[u8] = b"\x30\x0e\x30\x05\x06\x01\x2a\x04\x00\x30\x05\x06\x01\x2a\x04\x00";

// A subjectAltName that is critical and is no text of one.
const ALT_NAME: &[u8] = b"\x30\x0c\x30\x0a\x06\x03\x55\x1d\x11\x01\x01\xff\x04\x00";

// An authorityKeyIdentifier without keyIdentifier, and a pathLenConstraint without cA.
const NO_IDENTIFIER: &[u8] = b"\x30\x0d\x30\x0b\x06\x03\x55\x1d\x23\x04\x04\x30\x02\x82\x00";

const NO_CA: &[u8] = b"\x30\x0e\x30\x0c\x06\x03\x55\x1d\x13\x04\x05\x30\x03\x02\x01\x00";

// keyUsages with bit 5, with bit 8, and with an unused bit that isn't zero.
const SIGNS: &[u8] = b"\x30\x0d\x30\x0b\x06\x03\x55\x1d\x0f\x04\x04\x03\x02\x02\x04";

const DECIPHERS: &[u8] = b"\x30\x0e\x30\x0c\x06\x03\x55\x1d\x0f\x04\x05\x03\x03\x07\x00\x80";

const UNUSED_BIT: &[u8] = b"\x30\x0d\x30\x0b\x06\x03\x55\x1d\x0f\x04\x04\x03\x02\x03\x04";

fn tells_extensions(alloc: Global) -> bool {
    are_read(alloc, UNKNOWN, true)
        && are_read(alloc, UNKNOWN_CRITICAL, false)
        && are_read(alloc, UNKNOWN_TWICE, false)
        && are_read(alloc, ALT_NAME, true)
        && are_read(alloc, NO_IDENTIFIER, true)
        && are_read(alloc, NO_CA, true)
        && are_read(alloc, UNUSED_BIT, false)
        && say_usage(alloc, SIGNS, 32)
        && say_usage(alloc, DECIPHERS, 256)
}

#[test]
fn tells_extensions_from_other_octets(rt: HostRuntime) {
    assert!(rt; tells_extensions(rt.alloc()));
}

const NAME: &[u8] = b"\x30\x00";

fn has_its_parts(anchor: &Anchor) -> bool {
    let Some(constraints) = anchor.constraints() else {
        return false;
    };
    anchor.subject() == NAME
        && anchor.key_id().octets() == b"a".as_slice()
        && anchor.key() == &[7; 60]
        && anchor.constraints_text() == Some(CONSTRAINTS)
        && are_those(&constraints)
}

// Whether an anchor is made of this name and these constraints exactly where it should be.
fn is_made_of(alloc: Global, name: Vec<u8>, constraints: Vec<u8>, wanted: bool) -> bool {
    let Some(id) = Octets64::new(b"a") else {
        return false;
    };
    match Anchor::new(alloc, name, id, [7; 60], Some(constraints)) {
        Ok(Some(anchor)) => wanted && has_its_parts(&anchor),
        Ok(None) => !wanted,
        Err(_) => false,
    }
}

fn is_made(alloc: Global, name: &[u8], constraints: &[u8], wanted: bool) -> bool {
    match (name.to_vec(alloc), constraints.to_vec(alloc)) {
        (Ok(name), Ok(constraints)) => is_made_of(alloc, name, constraints, wanted),
        _ => false,
    }
}

fn makes_anchors(alloc: Global) -> bool {
    is_made(alloc, NAME, CONSTRAINTS, true)
        && is_made(alloc, b"\x31\x00", CONSTRAINTS, false)
        && is_made(alloc, NAME, NAME, false)
}

#[test]
fn makes_anchors_of_their_parts(rt: HostRuntime) {
    assert!(rt; makes_anchors(rt.alloc()));
}
