// What a certificate is to say.

use der_core::{Moment, Octets64, Oid};
use hss_chain::HssKey;

/// That a certificate's subject is an authority (RFC 5280, section 4.2.1.9).
#[derive(Clone, Copy, Debug)]
pub struct Authority {
    /// How many certificates that aren't self-issued may stand below it. None: any number.
    pub path_len: Option<u128>,
}

/// What a key may be used for (RFC 5280, section 4.2.1.3).
#[derive(Clone, Copy, Debug)]
pub enum KeyUses {
    /// Signatures of content, digitalSignature.
    Sign,
    /// Signatures of certificates, keyCertSign.
    CertSign,
    /// Both.
    Both,
}

/// What a certificate is to say (RFC 5280, sections 4.1 and 4.2). What is none isn't written.
#[derive(Drop)]
pub struct CertPlan {
    /// The contents of the serial number's INTEGER, 1 to 20 octets.
    pub serial: Vec<u8>,
    /// Names, whole elements of at most 2^16 octets.
    pub issuer: Vec<u8>,
    pub subject: Vec<u8>,
    /// The ends of the validity, both included.
    pub from: Moment,
    pub to: Moment,
    /// The subject's key.
    pub key: HssKey,
    /// Key identifiers of 1 to 64 octets.
    pub subject_key: Option<Octets64>,
    pub authority_key: Option<Octets64>,
    pub authority: Option<Authority>,
    pub uses: Option<KeyUses>,
    /// The text of content constraints (RFC 6010, section 3), at most 2^31 octets.
    pub constraints: Option<Vec<u8>>,
    /// The hardware module that the certificate names, by hardware type and serial number (RFC 4108,
    /// section 5).
    pub hardware: Option<(Oid, Octets64)>,
}
