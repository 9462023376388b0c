ghost use Rattle.std.specs.Prelude.{◌≡◌};
ghost use Rattle.lms_sign.specs.Secrets.{one_time_public, randomizer, secret};

use crate::key::SignKey;
use lms_verify::chain;
use sha2::{Digest, Sha256};

// What tells the hash of a one-time key from others (RFC 8554, section 7.1).
const D_PBLC: [u8; 2] = [0x80, 0x80];

// The number that stands in the place of a chain's where the randomizer is made.
const RANDOMIZER: u16 = 0xfffd;

// The secret of chain `i` of leaf `q` (RFC 8554, Appendix A).
pub(crate) fn secret(key: &SignKey, q: u32, i: u16) -> [u8; 32]
    ensures { result ≡ secret key.now q i }
{
    let mut hasher = Sha256::new();
    hasher.update(key.id);
    hasher.update(q.to_be_bytes());
    hasher.update(i.to_be_bytes());
    hasher.update([0xff]);
    hasher.update(key.seed);
    hasher.finalize()
}

// The randomizer C of leaf `q`.
pub(crate) fn randomizer(key: &SignKey, q: u32) -> [u8; 32]
    ensures { result ≡ randomizer key.now q }
{
    secret(key, q, RANDOMIZER)
}

// The one-time public key of leaf `q` (RFC 8554, section 4.3).
pub(crate) fn one_time_public(key: &SignKey, q: u32) -> [u8; 32]
    ensures { result ≡ one_time_public key.now q }
{
    let last = key.ots.last_place();
    let mut hasher = Sha256::new();
    hasher.update(key.id);
    hasher.update(q.to_be_bytes());
    hasher.update(D_PBLC);
    for i in 0..key.ots.chain_count() {
        let i = i as u16;
        hasher.update(chain(&key.id, q, i, 0, last, &secret(key, q, i)));
    }
    hasher.finalize()
}
