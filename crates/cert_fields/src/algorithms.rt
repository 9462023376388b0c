//! Identifiers of algorithms, whole elements (RFC 5280, section 4.1.1.2).

ghost use Rattle.std.specs.Prelude.{◌≡◌, ◌↔◌, IsTrue};
ghost use Rattle.cert_fields.specs.Algorithms.{signature_algorithm};

/// SHA-256 without parameters: id-sha256, 2.16.840.1.101.3.4.2.1 (RFC 5754, section 2.2).
pub const SHA_256: [u8; 13] = [
    0x30, 0x0b, 0x06, 0x09, 0x60, 0x86, 0x48, 0x01, 0x65, 0x03, 0x04, 0x02, 0x01,
];

/// SHA-256 with the parameters NULL (RFC 5754, section 2.2).
pub const SHA_256_NULL: [u8; 15] = [
    0x30, 0x0d, 0x06, 0x09, 0x60, 0x86, 0x48, 0x01, 0x65, 0x03, 0x04, 0x02, 0x01, 0x05, 0x00,
];

/// HSS/LMS without parameters, of keys and of signatures: id-alg-hss-lms-hashsig,
/// 1.2.840.113549.1.9.16.3.17 (RFC 9708, section 3).
pub const HSS_LMS: [u8; 15] = [
    0x30, 0x0d, 0x06, 0x0b, 0x2a, 0x86, 0x48, 0x86, 0xf7, 0x0d, 0x01, 0x09, 0x10, 0x03, 0x11,
];

/// Whether an algorithm, a whole element, is HSS/LMS without parameters (RFC 9708, section 3).
#[tactic(auto, unfolding(der_core::specs::Element::enc, der_core::specs::Element::length_octets))]
pub fn is_hss_lms(algorithm: &[u8]) -> bool
    ensures exact { IsTrue result ↔ (algorithm.now ≡ signature_algorithm) }
{
    algorithm == HSS_LMS.as_slice()
}
