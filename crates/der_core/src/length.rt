// The length octets of an element.
ghost use Rattle.std.specs.Prelude.{◌≡◌, ◌+◌, ◌-◌, ◌<◌, ◌≤◌, ◌^◌, ◌*◌, length, take, drop, MatchResult, Ok, Err};
ghost use Rattle.std.specs.Int.Digits.{number_from_digits};
ghost use Rattle.der_core.specs.Reading.{long_length_at, length_at};

use crate::fault::DerFault;

// The length at the front, and what follows it: the short form, or the long one with at most four
// octets (X.690, sections 8.1.3.4 and 8.1.3.5).
#[tactic(auto, unfolding(crate::specs::Reading::length_at))]
pub(crate) fn split_length(bytes: &[u8]) -> Result<(u32, &[u8]), DerFault>
    ensures { MatchResult result
        (λ x. length_at bytes.now ≡ Ok (x.0, x.1.now)) (λ e. length_at bytes.now ≡ Err e) }
{
    let [first, rest @ ..] = bytes else {
        return Err(DerFault::Short);
    };
    match *first {
        0..=127 => Ok((u32::from(*first), rest)),
        129..=132 => read_long_length((*first - 128) as usize, rest),
        _ => Err(DerFault::Malformed),
    }
}

// The length of `count` octets at the front, and what follows it. It is the shortest text of its
// number: it doesn't begin with 00, and is 128 at least (X.690, section 10.1).
#[tactic(auto, unfolding(crate::specs::Reading::long_length_at))]
fn read_long_length(count: usize, bytes: &[u8]) -> Result<(u32, &[u8]), DerFault>
    requires low { 0 < count }
    requires high { count ≤ 4 }
    ensures { MatchResult result
        (λ x. long_length_at count bytes.now ≡ Ok (x.0, x.1.now))
        (λ e. long_length_at count bytes.now ≡ Err e) }
{
    let [first, ..] = bytes else {
        return Err(DerFault::Short);
    };
    if *first == 0 || count == 1 && *first < 128 {
        return Err(DerFault::Malformed);
    }
    if bytes.len() < count {
        return Err(DerFault::Short);
    }
    let (front, rest) = bytes.split_at(count);
    Ok((number_of(front), rest))
}

// The number that octets spell in base 256, high first.
fn number_of(octets: &[u8]) -> u32
    requires { length octets.now ≤ 4 }
    ensures { result ≡ number_from_digits 256 octets.now }
{
    let mut number: u32 = 0;
    for octet in octets {
        number = number * 256 + u32::from(*octet);
    }
    number
}
