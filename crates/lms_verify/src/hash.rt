ghost use Rattle.std.specs.Prelude.{◌≡◌, ◌++◌};
ghost use Rattle.lms_verify.specs.Digits.{u32str};
ghost use Rattle.sha2.specs.Hashers.{Holds256};

use sha2::{Digest, Sha256};

// A hasher of what all hashes but those of chains begin with: the identifier I, a number, and two
// octets that say what is hashed (RFC 8554, section 7.1).
pub(crate) fn hasher_of(id: &[u8; 16], number: u32, kind: [u8; 2]) -> Sha256
    ensures { Holds256 result (id.now ++ u32str number ++ kind) }
{
    let mut hasher = Sha256::new();
    hasher.update(id);
    hasher.update(number.to_be_bytes());
    hasher.update(kind);
    hasher
}
