// What the extensions of a certificate say.

use crate::Ccc;
use der_core::Octets64;

/// Whether a certificate's subject is an authority, and how far below it paths may go (RFC 5280,
/// section 4.2.1.9).
#[derive(Clone, Copy, Debug)]
pub struct CaRule {
    pub ca: bool,
    /// How many certificates that aren't self-issued may stand below this one. None: any number.
    pub path_len: Option<u128>,
}

/// What the extensions of a certificate say that are read here. Each is none where no extension of
/// its type is there.
#[derive(Drop)]
pub struct Extensions<'a> {
    /// subjectKeyIdentifier, of 1 to 64 octets (RFC 5280, section 4.2.1.2).
    pub subject_key: Option<Octets64>,
    /// keyIdentifier of authorityKeyIdentifier, of 1 to 64 octets (RFC 5280, section 4.2.1.1). None
    /// also where the extension has no keyIdentifier.
    pub authority_key: Option<Octets64>,
    /// basicConstraints.
    pub ca: Option<CaRule>,
    /// keyUsage: bit n of the number is bit n of the BIT STRING, from digitalSignature (0) to
    /// decipherOnly (8) (RFC 5280, section 4.2.1.3).
    pub usage: Option<u16>,
    /// cmsContentConstraints, which stay in place (RFC 6010, section 3).
    pub constraints: Option<Ccc<'a>>,
}
