ghost use Rattle.std.specs.Prelude.{◌≡◌, ◌↔◌, ◌++◌, List, ℕ, IsTrue, IfSome, IsSomeAnd};
ghost use Rattle.lms_verify.specs.declared.key.LmsKey.{LmsKey};
ghost use Rattle.hss_chain.specs.Chains.{HssHolds};
ghost use Rattle.hss_chain.specs.Levels.{LevelsHold, Signs};

use crate::key::HssKey;
use lms_verify::{KEY_LEN, LmsKey, lms_check, lms_key, signature_size};

// The next key, where it stands in front of the octets behind its signature by this one, and the rest.
fn next_key<'a>(key: &LmsKey, octets: &'a [u8]) -> Option<(LmsKey, &'a [u8])>
    ensures read { IfSome result (λ found. Signs key.now found.0 octets.now found.1.now) }
    ensures found { (next : LmsKey) (rest : List ℕ) → Signs key.now next octets.now rest
        → IsSomeAnd result (λ found. (found.0 ≡ next) × (found.1.now ≡ rest)) }
{
    let size = signature_size(key.kind, key.ots);
    if octets.len() < size + KEY_LEN {
        return None;
    }
    let (signature, behind) = octets.split_at(size);
    let (text, rest) = behind.split_at(KEY_LEN);
    let Some(next) = lms_key(text) else {
        return None;
    };
    if lms_check(key, text, &[], signature) {
        return Some((next, rest));
    }
    None
}

// Whether the octets are `count` signed keys, the first by `top`, and then a signature of the message.
fn levels_hold(top: &LmsKey, count: u8, first: &[u8], rest: &[u8], octets: &[u8]) -> bool
    ensures { IsTrue result ↔ LevelsHold top.now count (first.now ++ rest.now) octets.now }
{
    let mut signer = *top;
    let mut left = octets;
    for _ in 0..count {
        let Some((next, behind)) = next_key(&signer, left) else {
            return false;
        };
        signer = next;
        left = behind;
    }
    lms_check(&signer, first, rest, left)
}

/// Whether the octets are a signature under the key of the message `first` followed by `rest`, with as
/// many levels as the key has. A key of no level or of more than 8 has none (RFC 8554, section 6.3).
pub fn hss_check(key: &HssKey, first: &[u8], rest: &[u8], signature: &[u8]) -> bool
    ensures holds { IsTrue result ↔ HssHolds key.now (first.now ++ rest.now) signature.now }
{
    let [0, 0, 0, count @ 0..8, signed @ ..] = signature else {
        return false;
    };
    *count + 1 == key.levels && levels_hold(&key.top, *count, first, rest, signed)
}
