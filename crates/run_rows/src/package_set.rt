// Attribute sets of packages, as `rehearse` reads them (RFC 5652, section 5.3; RFC 4108, section 2.2).
use std::alloc::{AllocError, Global};

// The hardware type, 1.2.3, and the type of the content, a firmware package (RFC 4108, section
// 2.2.4; RFC 5652, section 11.1).
const TARGETS_AND_CONTENT: &[u8] =
    b"\x30\x15\x06\x0b\x2a\x86\x48\x86\xf7\x0d\x01\x09\x10\x02\x24\x31\
    \x06\x30\x04\x06\x02\x2a\x03\x30\x1a\x06\x09\x2a\x86\x48\x86\xf7\x0d\x01\x09\x03\x31\x0d\x06\x0b\
    \x2a\x86\x48\x86\xf7\x0d\x01\x09\x10\x01\x10";

// The type of the package identifier (RFC 4108, section 2.2.3).
const PACKAGE_ID: &[u8] = b"\x06\x0b\x2a\x86\x48\x86\xf7\x0d\x01\x09\x10\x02\x23";

// The type of the package information (RFC 4108, section 2.2.9).
const PACKAGE_INFO: &[u8] = b"\x06\x0b\x2a\x86\x48\x86\xf7\x0d\x01\x09\x10\x02\x2a";

// The digest of the content (RFC 5652, section 11.2), up to its 32 octets.
const DIGEST: &[u8] = b"\x30\x2f\x06\x09\x2a\x86\x48\x86\xf7\x0d\x01\x09\x04\x31\x22\x04\x20";

// The package 1.2.3.ID in a version, with a stale number, and with a need of 1.2.3.ID in a version.
#[derive(Clone, Copy)]
pub(crate) struct Offered {
    id: u8,
    version: u8,
    stale: Option<u8>,
    need: Option<(u8, u8)>,
}

// The package without a stale number or a need.
pub(crate) const fn plain(id: u8, version: u8) -> Offered {
    Offered {
        id,
        version,
        stale: None,
        need: None,
    }
}

// The package 1.2.3.1 with a stale number.
pub(crate) const fn stale(version: u8, number: u8) -> Offered {
    Offered {
        id: 1,
        version,
        stale: Some(number),
        need: None,
    }
}

// The package with a need.
pub(crate) const fn needing(id: u8, version: u8, needed: u8, least: u8) -> Offered {
    Offered {
        id,
        version,
        stale: None,
        need: Some((needed, least)),
    }
}

// Appends the package's attribute set.
fn put_set(out: &mut Vec<u8>, package: Offered) -> Result<(), AllocError> {
    let more = if package.stale.is_some() { 3 } else { 0 };
    let info = if package.need.is_some() { 31 } else { 0 };
    out.extend_from_slice(&[0x31, 0x81, 129 + more + info])?;
    out.extend_from_slice(TARGETS_AND_CONTENT)?;
    out.extend_from_slice(&[0x30, 0x1b + more])?;
    out.extend_from_slice(PACKAGE_ID)?;
    out.extend_from_slice(&[0x31, 0x0c + more, 0x30, 0x0a + more])?;
    out.extend_from_slice(b"\x30\x08\x06\x03\x2a\x03")?;
    out.extend_from_slice(&[package.id, 0x02, 0x01, package.version])?;
    if let Some(stale) = package.stale {
        out.extend_from_slice(&[0x02, 0x01, stale])?;
    }
    if let Some((id, version)) = package.need {
        out.extend_from_slice(&[0x30, 0x1d])?;
        out.extend_from_slice(PACKAGE_INFO)?;
        out.extend_from_slice(b"\x31\x0e\x30\x0c\x30\x0a\x30\x08\x06\x03\x2a\x03")?;
        out.extend_from_slice(&[id, 0x02, 0x01, version])?;
    }
    out.extend_from_slice(DIGEST)?;
    out.extend_from_slice(&[0; 32])
}

// The packages' sets, and what is behind them.
pub(crate) fn sets_of(
    alloc: Global,
    packages: &[Offered],
    rest: &[u8],
) -> Result<Vec<u8>, AllocError> {
    let mut input = Vec::new(alloc);
    for package in packages {
        put_set(&mut input, *package)?;
    }
    input.extend_from_slice(rest)?;
    Ok(input)
}
