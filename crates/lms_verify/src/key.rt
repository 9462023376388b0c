ghost use Rattle.std.specs.Prelude.{◌≡◌, Some, IfSome};
ghost use Rattle.lms_verify.specs.Keys.{IsLmsKey, lms_key_text};

use crate::kind::{LmsKind, OtsKind};
use crate::octets::{KEY_LEN, NUMBER_LEN, id_in, number_in, value_in};

// The octets of an identifier I.
const ID_LEN: usize = 16;

/// An LMS public key (RFC 8554, section 5.3).
#[derive(Clone, Copy, Debug, PartialEq, Eq)]
pub struct LmsKey {
    pub kind: LmsKind,
    pub ots: OtsKind,
    /// The identifier I of the key pair.
    pub id: [u8; 16],
    /// The value T\[1\] of the root.
    pub root: [u8; 32],
}

/// The public key whose text the octets are: 56 of them, with typecodes of known kinds (RFC 8554,
/// section 5.3).
pub fn lms_key(octets: &[u8]) -> Option<LmsKey>
    ensures read { IfSome result (λ key. octets.now ≡ lms_key_text key) }
    ensures valid { IfSome result IsLmsKey }
    ensures found { (key : LmsKey) → IsLmsKey key → octets.now ≡ lms_key_text key → result ≡ Some key }
{
    if octets.len() != KEY_LEN {
        return None;
    }
    let (number, rest) = octets.split_at(NUMBER_LEN);
    let Some(kind) = LmsKind::from_number(number_in(number)) else {
        return None;
    };
    let (number, rest) = rest.split_at(NUMBER_LEN);
    let Some(ots) = OtsKind::from_number(number_in(number)) else {
        return None;
    };
    let (id, root) = rest.split_at(ID_LEN);
    Some(LmsKey {
        kind,
        ots,
        id: id_in(id),
        root: value_in(root),
    })
}
