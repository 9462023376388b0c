ghost use Rattle.std.specs.Prelude.{◌≡◌, ◌≢◌, ◌≤◌, ◌<◌, ◌^◌, length, None, IfSome};
ghost use Rattle.der_core.specs.Moment.{IsMoment};
ghost use Rattle.der_core.specs.Reads.{Reads, Answers};
ghost use Rattle.der_core.specs.Time.{utc_text, IsUtc, generalized_text};
ghost use Rattle.der_core.specs.TimeReading.{digit_of, decimal_after, zulu_of, with_century};
ghost use Rattle.der_core.specs.TimeReading.{utc_of, generalized_of, time_of};

use crate::moment::Moment;
use crate::tags;

// The digit that an octet spells in ASCII.
#[tactic(auto, unfolding(crate::specs::TimeReading::digit_of))]
fn read_digit(octet: u8) -> Option<u8>
    ensures exact { Answers (λ digit. digit) result (digit_of octet) }
    ensures small { IfSome result (λ digit. digit < 10) }
{
    match octet {
        b'0'..=b'9' => Some(octet - b'0'),
        _ => None,
    }
}

// The number that decimal digits spell.
pub(crate) fn read_decimal(digits: &[u8]) -> Option<u64>
    requires { length digits.now ≤ 14 }
    ensures exact { Answers (λ number. number) result (decimal_after 0 digits.now) }
    ensures small { IfSome result (λ number. number < 10 ^ length digits.now) }
{
    let mut number: u64 = 0;
    for octet in digits {
        let digit = read_digit(*octet)?;
        number = number * 10 + u64::from(digit);
    }
    Some(number)
}

// The number of so many decimal digits, with Z behind them.
#[tactic(auto, unfolding(crate::specs::TimeReading::zulu_of))]
fn read_zulu(count: usize, contents: &[u8]) -> Option<u64>
    requires { count ≤ 14 }
    ensures exact { Answers (λ number. number) result (zulu_of count contents.now) }
    ensures small { IfSome result (λ number. number < 10 ^ count) }
{
    if contents.len() != count + 1 || contents[count] != b'Z' {
        return None;
    }
    read_decimal(&contents[..count])
}

// A moment whose year has lost its first two digits.
#[tactic(auto, unfolding(crate::specs::TimeReading::with_century))]
fn with_century(number: u64) -> u64
    requires { number < 10 ^ 12 }
    ensures { result ≡ with_century number }
{
    if number < 500_000_000_000 {
        20_000_000_000_000 + number
    } else {
        19_000_000_000_000 + number
    }
}

#[tactic(auto, unfolding(crate::specs::TimeReading::utc_of))]
fn read_utc(contents: &[u8]) -> Option<Moment>
    ensures { Answers (λ moment. moment) result (utc_of contents.now) }
{
    let number = read_zulu(12, contents)?;
    Moment::new(with_century(number))
}

#[tactic(auto, unfolding(crate::specs::TimeReading::generalized_of))]
fn read_generalized(contents: &[u8]) -> Option<Moment>
    ensures { Answers (λ moment. moment) result (generalized_of contents.now) }
{
    let number = read_zulu(14, contents)?;
    Moment::new(number)
}

// The moment of a time of either form.
#[tactic(auto, unfolding(crate::specs::TimeReading::time_of))]
fn read_form(tag: u8, contents: &[u8]) -> Option<Moment>
    ensures { Answers (λ moment. moment) result (time_of tag contents.now) }
{
    match tag {
        tags::UTC_TIME => read_utc(contents),
        tags::GENERALIZED_TIME => read_generalized(contents),
        _ => None,
    }
}

/// The moment that the contents of a time of this tag spell.
///
/// A UTCTime is YYMMDDhhmmssZ, where years from 50 on are 19YY and others 20YY, and a
/// GeneralizedTime is YYYYMMDDhhmmssZ (RFC 5280, sections 4.1.2.5.1 and 4.1.2.5.2). Either is
/// read for every year that it can spell. No other tag is that of a time.
pub fn read_time(tag: u8, contents: &[u8]) -> Option<Moment>
    ensures utc { tag ≡ 0x17 → Reads utc_text IsUtc contents.now result }
    ensures generalized { tag ≡ 0x18 → Reads generalized_text IsMoment contents.now result }
    ensures other { tag ≢ 0x17 → tag ≢ 0x18 → result ≡ None }
    ensures exact { Answers (λ moment. moment) result (time_of tag contents.now) }
{
    read_form(tag, contents)
}
