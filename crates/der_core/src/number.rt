ghost use Rattle.std.specs.Prelude.{◌≡◌, ◌<◌, ◌≤◌, ◌^◌, length};
ghost use Rattle.std.specs.Int.Digits.{number_from_digits};
ghost use Rattle.der_core.specs.Number.{number_contents};
ghost use Rattle.der_core.specs.Reading.{number_digits, number_of};
ghost use Rattle.der_core.specs.Reads.{Reads, Answers};

/// The number from 0 to 2^128 - 1 that the contents of an INTEGER spell (X.690, section 8.3).
/// None for a negative number, a greater one, and for more octets than need be.
pub fn read_u128(contents: &[u8]) -> Option<u128>
    ensures spelled { Reads number_contents (λ n. n < 2 ^ 128) contents.now result }
    ensures exact { Answers (λ n. n) result (number_of contents.now) }
{
    number(contents)
}

// The same, with the reading alone.
#[tactic(auto, unfolding(crate::specs::Reading::number_of))]
fn number(contents: &[u8]) -> Option<u128>
    ensures { Answers (λ n. n) result (number_of contents.now) }
{
    let digits = digits(contents)?;
    if digits.len() > 16 {
        return None;
    }
    Some(number_from_octets(digits))
}

// The base 256 digits of a number that isn't negative: without the 00 that stands before a digit
// whose top bit is set, or alone for the number 0.
#[tactic(auto, unfolding(crate::specs::Reading::number_digits))]
fn digits(contents: &[u8]) -> Option<&[u8]>
    ensures { Answers (λ ds. ds.now) result (number_digits contents.now) }
{
    match contents {
        [] => None,
        [0, second, ..] if *second < 128 => None,
        [0, rest @ ..] => Some(rest),
        [first, ..] if *first < 128 => Some(contents),
        [_, ..] => None,
    }
}

// The number that at most 16 octets spell in base 256, high first.
fn number_from_octets(octets: &[u8]) -> u128
    requires { length octets.now ≤ 16 }
    ensures { result ≡ number_from_digits 256 octets.now }
{
    let mut number: u128 = 0;
    for octet in octets {
        number = number * 256 + *octet as u128;
    }
    number
}
