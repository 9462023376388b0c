// The identifier of a signer.

/// What a signer's certificate or key is found by (RFC 5652, section 5.3).
#[derive(Clone, Copy, Debug)]
pub enum Sid<'a> {
    /// The name of the certificate's issuer, a whole element, and the contents of its serial number.
    Serial { issuer: &'a [u8], serial: &'a [u8] },
    /// A key identifier, of any length.
    KeyId(&'a [u8]),
}
