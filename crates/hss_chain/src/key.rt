ghost use Rattle.std.specs.Prelude.{◌≡◌, Some, IfSome};
ghost use Rattle.hss_chain.specs.Keys.{IsHssKey, hss_key_text};

use lms_verify::{LmsKey, lms_key};

/// An HSS public key: the count L of levels, which is from 1 to 8 in a valid one, and the LMS key of
/// the top level (RFC 8554, section 6.1).
#[derive(Clone, Copy, Debug, PartialEq, Eq)]
pub struct HssKey {
    pub levels: u8,
    pub top: LmsKey,
}

/// The public key whose text the octets are: 60 of them, with 1 to 8 levels and known kinds (RFC 8554,
/// section 6.1).
pub fn hss_key(octets: &[u8]) -> Option<HssKey>
    ensures read { IfSome result (λ key. octets.now ≡ hss_key_text key) }
    ensures valid { IfSome result IsHssKey }
    ensures found { (key : HssKey) → IsHssKey key → octets.now ≡ hss_key_text key → result ≡ Some key }
{
    let [0, 0, 0, levels @ 1..=8, top @ ..] = octets else {
        return None;
    };
    let Some(top) = lms_key(top) else {
        return None;
    };
    Some(HssKey {
        levels: *levels,
        top,
    })
}
