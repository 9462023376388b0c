// HSS in certificates.
ghost use Rattle.std.specs.Prelude.{◌≡◌, ◌↔◌, Some, IsTrue};
ghost use Rattle.cert_fields.specs.View.{bits_view, certificate_view};
ghost use Rattle.hss_chain.specs.declared.key.HssKey.{HssKey};
ghost use Rattle.path_check.specs.HssCertificate.{IsKeyOf, IsSignedBy, IsSignedOver};
ghost use Rattle.path_check.specs.Members.{IsCertOfText};

use cert_fields::algorithms::is_hss_lms;
use cert_fields::{Bits, Cert};
use hss_chain::{HssKey, hss_check, hss_key};

// The header of an OCTET STRING of 60 octets (X.690, section 8.7).
const KEY_HEADER: &[u8] = b"\x04\x3c";

// The HSS key of the certificate, as its octets or in an OCTET STRING.
pub(crate) fn key_of(cert: &Cert<'_>) -> Option<HssKey>
    ensures exact { (key : HssKey) → (result ≡ Some key) ↔ IsKeyOf (certificate_view cert.now) key }
{
    let bits = &cert.signed.key;
    if !is_hss_lms(cert.signed.key_algorithm) || bits.unused != 0 {
        return None;
    }
    match bits.octets.strip_prefix(KEY_HEADER) {
        Some(octets) => hss_key(octets),
        None => hss_key(bits.octets),
    }
}

/// Whether the octets are signed by the key, in a structure that names the algorithm twice, as a
/// certificate and a revocation list do (RFC 5280, sections 4.1.1 and 5.1.1): both times HSS/LMS without
/// parameters (RFC 9708), with no unused bits, and the signature holds (RFC 8554, section 6.3).
/// Verifies only where the others hold.
pub fn is_signed_over(
    key: &HssKey,
    inner: &[u8],
    outer: &[u8],
    signature: &Bits<'_>,
    octets: &[u8],
) -> bool
    ensures exact { IsTrue result
        ↔ IsSignedOver key.now inner.now outer.now (bits_view signature.now) octets.now }
{
    is_hss_lms(inner)
        && is_hss_lms(outer)
        && signature.unused == 0
        && hss_check(key, octets, &[], signature.octets)
}

// Whether the certificate is signed by the key.
pub(crate) fn is_signed_by(key: &HssKey, cert: &Cert<'_>) -> bool
    requires text { IsCertOfText cert.now }
    ensures exact { IsTrue result ↔ IsSignedBy key.now (certificate_view cert.now) }
{
    is_signed_over(
        key,
        cert.signed.algorithm,
        cert.algorithm,
        &cert.signature,
        cert.tbs,
    )
}
