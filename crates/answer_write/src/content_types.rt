//! Types of contents, as the contents of their OBJECT IDENTIFIERs.

/// id-ct-firmwareLoadReceipt, 1.2.840.113549.1.9.16.1.17 (RFC 4108, section 3).
pub const LOAD_RECEIPT: [u8; 11] = [
    0x2a, 0x86, 0x48, 0x86, 0xf7, 0x0d, 0x01, 0x09, 0x10, 0x01, 0x11,
];

/// id-ct-firmwareLoadError, 1.2.840.113549.1.9.16.1.18 (RFC 4108, section 4).
pub const LOAD_ERROR: [u8; 11] = [
    0x2a, 0x86, 0x48, 0x86, 0xf7, 0x0d, 0x01, 0x09, 0x10, 0x01, 0x12,
];
