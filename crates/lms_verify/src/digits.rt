ghost use Rattle.std.specs.Prelude.{◌≡◌, ◌+◌, ◌*◌, ◌≤◌, length};
ghost use Rattle.lms_verify.specs.Digits.{checked_value, checksum, digit};
ghost use Rattle.lms_verify.specs.Kinds.{width};

use crate::kind::OtsKind;
use crate::octets::VALUE_LEN;

// The octets of a message value and its checksum.
const CHECKED_LEN: usize = 34;

/// Digit `i` of octets that are read as digits of w bits, the highest first (RFC 8554, section
/// 3.1.3).
pub fn digit(ots: OtsKind, octets: &[u8], i: usize) -> u8
    requires few { length octets.now ≤ 34 }
    requires within { width ots * (i + 1) ≤ 8 * length octets.now }
    ensures value { result ≡ digit (width ots) octets.now i }
{
    let width = ots.width();
    let before = width * i;
    let after = 8 - width - before % 8;
    (octets[before / 8] >> after) & ots.last_place()
}

// The checksum of a message value (RFC 8554, section 4.4).
fn checksum(ots: OtsKind, value: &[u8; 32]) -> u16
    ensures { result ≡ checksum ots value.now }
{
    let last = ots.last_place();
    let mut sum = 0u16;
    for i in 0..8 * VALUE_LEN / ots.width() {
        sum += u16::from(last - digit(ots, value, i));
    }
    sum << ots.checksum_shift()
}

/// A message value and its checksum, whose digits say how far each chain goes (RFC 8554, section
/// 4.5).
pub fn checked_value(ots: OtsKind, value: &[u8; 32]) -> [u8; 34]
    ensures value { result ≡ checked_value ots value.now }
{
    let mut octets = [0u8; CHECKED_LEN];
    octets[..VALUE_LEN].copy_from_slice(value);
    octets[VALUE_LEN..].copy_from_slice(&checksum(ots, value).to_be_bytes());
    octets
}
