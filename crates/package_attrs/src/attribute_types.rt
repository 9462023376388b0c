//! The types of the signed attributes that a package is read from, as the contents of their
//! OBJECT IDENTIFIERs.

/// id-contentType, 1.2.840.113549.1.9.3 (RFC 5652, section 11.1).
pub const CONTENT_TYPE: [u8; 9] = [0x2a, 0x86, 0x48, 0x86, 0xf7, 0x0d, 0x01, 0x09, 3];

/// id-messageDigest, 1.2.840.113549.1.9.4 (RFC 5652, section 11.2).
pub const MESSAGE_DIGEST: [u8; 9] = [0x2a, 0x86, 0x48, 0x86, 0xf7, 0x0d, 0x01, 0x09, 4];

/// id-signingTime, 1.2.840.113549.1.9.5 (RFC 5652, section 11.3).
pub const SIGNING_TIME: [u8; 9] = [0x2a, 0x86, 0x48, 0x86, 0xf7, 0x0d, 0x01, 0x09, 5];

/// id-aa-firmwarePackageID, 1.2.840.113549.1.9.16.2.35 (RFC 4108, section 2.2.3).
pub const FIRMWARE_PACKAGE_ID: [u8; 11] = [
    0x2a, 0x86, 0x48, 0x86, 0xf7, 0x0d, 0x01, 0x09, 16, 2, 35,
];

/// id-aa-targetHardwareIDs, 1.2.840.113549.1.9.16.2.36 (RFC 4108, section 2.2.4).
pub const TARGET_HARDWARE_IDS: [u8; 11] = [
    0x2a, 0x86, 0x48, 0x86, 0xf7, 0x0d, 0x01, 0x09, 16, 2, 36,
];

/// id-aa-communityIdentifiers, 1.2.840.113549.1.9.16.2.40 (RFC 4108, section 2.2.8).
pub const COMMUNITY_IDENTIFIERS: [u8; 11] = [
    0x2a, 0x86, 0x48, 0x86, 0xf7, 0x0d, 0x01, 0x09, 16, 2, 40,
];

/// id-aa-firmwarePackageInfo, 1.2.840.113549.1.9.16.2.42 (RFC 4108, section 2.2.9).
pub const FIRMWARE_PACKAGE_INFO: [u8; 11] = [
    0x2a, 0x86, 0x48, 0x86, 0xf7, 0x0d, 0x01, 0x09, 16, 2, 42,
];
