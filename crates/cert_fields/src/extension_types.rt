//! The types of the extensions that are known, as the contents of their OBJECT IDENTIFIERs.

ghost use Rattle.std.specs.Prelude.{◌≡◌};
ghost use Rattle.cert_fields.specs.ExtensionTypes.{is_known};

/// id-ce-subjectKeyIdentifier, 2.5.29.14 (RFC 5280, section 4.2.1.2).
pub const SUBJECT_KEY_IDENTIFIER: [u8; 3] = [0x55, 0x1d, 0x0e];

/// id-ce-keyUsage, 2.5.29.15 (RFC 5280, section 4.2.1.3).
pub const KEY_USAGE: [u8; 3] = [0x55, 0x1d, 0x0f];

/// id-ce-subjectAltName, 2.5.29.17 (RFC 5280, section 4.2.1.6).
pub const SUBJECT_ALT_NAME: [u8; 3] = [0x55, 0x1d, 0x11];

/// id-ce-basicConstraints, 2.5.29.19 (RFC 5280, section 4.2.1.9).
pub const BASIC_CONSTRAINTS: [u8; 3] = [0x55, 0x1d, 0x13];

/// id-ce-authorityKeyIdentifier, 2.5.29.35 (RFC 5280, section 4.2.1.1).
pub const AUTHORITY_KEY_IDENTIFIER: [u8; 3] = [0x55, 0x1d, 0x23];

/// id-ce-extKeyUsage, 2.5.29.37 (RFC 5280, section 4.2.1.12).
pub const EXT_KEY_USAGE: [u8; 3] = [0x55, 0x1d, 0x25];

/// id-pe-cmsContentConstraints, 1.3.6.1.5.5.7.1.18 (RFC 6010, section 3).
pub const CONTENT_CONSTRAINTS: [u8; 8] = [0x2b, 0x06, 0x01, 0x05, 0x05, 0x07, 0x01, 0x12];

// Whether the type is one of them.
pub(crate) fn is_known(kind: &[u8]) -> bool
    ensures { result ≡ is_known kind.now }
{
    kind == SUBJECT_KEY_IDENTIFIER.as_slice()
        || kind == KEY_USAGE.as_slice()
        || kind == SUBJECT_ALT_NAME.as_slice()
        || kind == BASIC_CONSTRAINTS.as_slice()
        || kind == AUTHORITY_KEY_IDENTIFIER.as_slice()
        || kind == EXT_KEY_USAGE.as_slice()
        || kind == CONTENT_CONSTRAINTS.as_slice()
}
