ghost use Rattle.std.specs.Prelude.{◌≡◌, ◌*◌, ◌++◌, length};
ghost use Rattle.lms_verify.specs.Kinds.{chain_count};
ghost use Rattle.lms_verify.specs.OneTime.{candidate_key, message_value};

use crate::chains::chain;
use crate::digits::{checked_value, digit};
use crate::hash::hasher_of;
use crate::kind::OtsKind;
use sha2::Digest;

// What tells the hash of a message and that of a one-time key from others (RFC 8554, section 7.1).
const D_MESG: [u8; 2] = [0x81, 0x81];

const D_PBLC: [u8; 2] = [0x80, 0x80];

/// The message value Q of leaf `q` and the randomizer C for the message `first` followed by `rest`,
/// which is hashed in one pass (RFC 8554, sections 4.5 and 4.6).
pub fn message_value(
    id: &[u8; 16],
    q: u32,
    randomizer: &[u8],
    first: &[u8],
    rest: &[u8],
) -> [u8; 32]
    ensures value { result ≡ message_value id.now q randomizer.now (first.now ++ rest.now) }
{
    let mut hasher = hasher_of(id, q, D_MESG);
    hasher.update(randomizer);
    hasher.update(first);
    hasher.update(rest);
    hasher.finalize()
}

// The key Kc to which the values of a one-time signature lead for the message value (RFC 8554,
// section 4.6, algorithm 4b).
pub(crate) fn candidate_key(
    ots: OtsKind,
    id: &[u8; 16],
    q: u32,
    value: &[u8; 32],
    values: &[u8],
) -> [u8; 32]
    requires { length values.now ≡ 32 * chain_count ots }
    ensures { result ≡ candidate_key ots id.now q value.now values.now }
{
    let octets = checked_value(ots, value);
    let last = ots.last_place();
    let mut hasher = hasher_of(id, q, D_PBLC);
    for i in 0..ots.chain_count() {
        let from = digit(ots, &octets, i);
        hasher.update(chain(id, q, i as u16, from, last, &values[32 * i..32 * i + 32]));
    }
    hasher.finalize()
}
