ghost use Rattle.std.specs.Prelude.{◌≡◌, length};
ghost use Rattle.lms_verify.specs.Digits.{u32str};

/// The octets of a number in keys and signatures (RFC 8554, section 3.1.2: u32str).
pub const NUMBER_LEN: usize = 4;

/// The octets of a hash value (RFC 8554, sections 4.1 and 5.1: n and m).
pub const VALUE_LEN: usize = 32;

/// The octets of an LMS public key (RFC 8554, section 5.3).
pub const KEY_LEN: usize = 56;

// The number that four octets write, the highest first (RFC 8554, section 3.1.2: strTou32).
pub(crate) fn number_in(octets: &[u8]) -> u32
    requires { length octets.now ≡ 4 }
    ensures { octets.now ≡ u32str result }
{
    u32::from_be_bytes([octets[0], octets[1], octets[2], octets[3]])
}

// The octets of an identifier, as an array.
pub(crate) fn id_in(octets: &[u8]) -> [u8; 16]
    requires { length octets.now ≡ 16 }
    ensures { result ≡ octets.now }
{
    let mut id = [0u8; 16];
    id.copy_from_slice(octets);
    id
}

// The octets of a value, as an array.
pub(crate) fn value_in(octets: &[u8]) -> [u8; 32]
    requires { length octets.now ≡ 32 }
    ensures { result ≡ octets.now }
{
    let mut value = [0u8; 32];
    value.copy_from_slice(octets);
    value
}
