// Items whose lengths change: put together from the parts of a package (RFC 5652, sections 3 and 5).
use crate::octets::element_of;
use der_core::Cursor;
use memchr::memmem;
use std::alloc::Global;

// The type of signed data.
const SIGNED_DATA: &[u8] = b"\x06\x09\x2a\x86\x48\x86\xf7\x0d\x01\x07\x02";

// The version 3 of signed data, and no digest algorithms.
const VERSION: &[u8] = b"\x02\x01\x03\x31\x00";

/// The encapContentInfo of the content `hello`.
pub const CONTENT: &[u8] = b"\x30\x16\x06\x0b\x2a\x86\x48\x86\xf7\x0d\x01\x09\x10\x01\x10\
    \xa0\x07\x04\x05hello";

/// A set without signers.
pub const NO_SIGNER: &[u8] = b"\x31\x00";

/// The parts of a signer.
pub const SIGNER: &[u8] = b"\x02\x01\x03\x80\x01\xa1";

pub const SHA_256: &[u8] = b"\x30\x0b\x06\x09\x60\x86\x48\x01\x65\x03\x04\x02\x01";

pub const HSS_LMS: &[u8] = b"\x30\x0d\x06\x0b\x2a\x86\x48\x86\xf7\x0d\x01\x09\x10\x03\x11";

/// An item with this encapContentInfo and what is behind it.
pub fn item_of(alloc: Global, content: &[u8], behind: &[u8]) -> Option<Vec<u8>> {
    let data = element_of(alloc, 0x30, &[VERSION, content, behind])?;
    let tagged = element_of(alloc, 0xa0, &[&data])?;
    element_of(alloc, 0x30, &[SIGNED_DATA, &tagged])
}

/// The set of one signer with these parts.
pub fn signers(alloc: Global, parts: &[&[u8]]) -> Option<Vec<u8>> {
    let signer = element_of(alloc, 0x30, parts)?;
    element_of(alloc, 0x31, &[&signer])
}

/// What is behind the content of a package of `hello`.
pub fn behind_content(item: &[u8]) -> Option<&[u8]> {
    let place = memmem::find(item, b"hello")?;
    item.get(place..)?.strip_prefix(b"hello".as_slice())
}

// What is behind the signer's identifier of a package without certificates: its digest algorithm,
// its signed attributes, its signature's algorithm, and its signature.
fn signer_parts(item: &[u8]) -> Option<Cursor<'_>> {
    let mut signers = Cursor::new(behind_content(item)?);
    let mut signer = Cursor::new(signers.tagged(0x31)?);
    let parts = signer.tagged(0x30)?;
    Some(Cursor::new(parts.strip_prefix(SIGNER)?))
}

/// Its signed attributes.
pub fn attributes(item: &[u8]) -> Option<&[u8]> {
    let mut parts = signer_parts(item)?;
    parts.whole(0x30)?;
    parts.whole(0xa0)
}

/// Its signature.
pub fn signature(item: &[u8]) -> Option<&[u8]> {
    let mut parts = signer_parts(item)?;
    parts.whole(0x30)?;
    parts.whole(0xa0)?;
    parts.whole(0x30)?;
    parts.whole(0x04)
}
