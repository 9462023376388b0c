ghost use Rattle.std.specs.Prelude.{◌↔◌, ◌≤◌, ◌<◌, ◌^◌, IsTrue, get_or};
ghost use Rattle.std.specs.Fmt.{decimal};
ghost use Rattle.der_core.specs.Decimal.{moment_digits};
ghost use Rattle.der_core.specs.Moment.{IsMoment};
ghost use Rattle.der_core.specs.Reads.{Reads};

use crate::moment::Moment;
use crate::time::read_decimal;
use std::str;

/// The number from 0 to 2^128 - 1 that these octets are in decimal, in ASCII. None for a sign, for
/// a leading zero and for a greater number.
pub fn read_decimal_u128(digits: &[u8]) -> Option<u128>
    ensures spelled { Reads decimal (λ n. n < 2 ^ 128) digits.now result }
{
    if digits == b"0".as_slice() {
        return Some(0);
    }
    if !is_led(digits) {
        return None;
    }
    parsed(digits)
}

// Whether the first octet is a digit other than 0.
fn is_led(digits: &[u8]) -> bool
    ensures { IsTrue result ↔ ((49 ≤ get_or digits.now 0 0) × (get_or digits.now 0 0 ≤ 57)) }
{
    match digits {
        [first, ..] => *first >= b'1' && *first <= b'9',
        [] => false,
    }
}

// The number whose first digit isn't 0.
fn parsed(digits: &[u8]) -> Option<u128>
    requires { 49 ≤ get_or digits.now 0 0 }
    ensures { Reads decimal (λ n. n < 2 ^ 128) digits.now result }
{
    match str::from_utf8(digits) {
        Ok(text) => text.parse().ok(),
        Err(_) => None,
    }
}

/// The number from 0 to 2^64 - 1 that these octets are in decimal, in ASCII. None for a sign, for a
/// leading zero and for a greater number.
pub fn read_decimal_u64(digits: &[u8]) -> Option<u64>
    ensures spelled { Reads decimal (λ n. n < 2 ^ 64) digits.now result }
{
    let number = read_decimal_u128(digits)?;
    u64::try_from(number).ok()
}

/// The moment that these fourteen digits are in ASCII, YYYYMMDDhhmmss. None for another count of
/// octets, for one that is no digit, and for a part out of its range.
pub fn read_decimal_moment(digits: &[u8]) -> Option<Moment>
    ensures spelled { Reads moment_digits IsMoment digits.now result }
{
    if digits.len() != 14 {
        return None;
    }
    let number = read_decimal(digits)?;
    Moment::new(number)
}
