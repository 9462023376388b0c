// A certificate, in place in its octets.
use crate::TbsCert;

/// The bits of a key or of a signature (X.690, section 8.6).
#[derive(Clone, Copy, Debug)]
pub struct Bits<'a> {
    /// How many bits of the last octet aren't used, 0 to 7. They are zero.
    pub unused: u8,
    pub octets: &'a [u8],
}

/// A certificate (RFC 5280, section 4.1). Its parts stay in place in its octets.
#[derive(Clone, Copy, Debug)]
pub struct Cert<'a> {
    pub whole: &'a [u8],
    /// The signed part, a whole element: what the signature is made over.
    pub tbs: &'a [u8],
    pub signed: TbsCert<'a>,
    /// The algorithm of the signature as it stands outside of the signed part, a whole element.
    pub algorithm: &'a [u8],
    pub signature: Bits<'a>,
}
