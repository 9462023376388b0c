ghost use Rattle.std.specs.Prelude.{◌≡◌, ◌++◌, ◌+◌, ◌≤◌, length, OnOk, OnErr};
ghost use Rattle.der_core.specs.Element.{enc};
ghost use Rattle.der_core.specs.Time.{last_digits, utc_text, generalized_text};
ghost use Rattle.der_core.specs.Time.{time_tag, time_contents};

use crate::element::put_tlv;
use der_core::{Moment, tags};
use std::alloc::{AllocError, Global};

// Writes the last decimal digits of a number, as many as there is room for.
fn write_last_digits(text: &mut [u8], number: u64)
    ensures { text.new ≡ last_digits (length text.old) number }
{
    let mut at = text.len();
    let mut left = number;
    while at > 0 {
        at -= 1;
        text[at] = b'0' + (left % 10) as u8;
        left /= 10;
    }
}

// The contents of a UTCTime.
#[tactic(auto, unfolding(der_core::specs::Time::utc_text))]
fn utc_contents(digits: u64) -> [u8; 13]
    ensures { result ≡ utc_text digits }
{
    let mut text = [b'Z'; 13];
    write_last_digits(&mut text[..12], digits);
    text
}

// The contents of a GeneralizedTime.
#[tactic(auto, unfolding(der_core::specs::Time::generalized_text))]
fn generalized_contents(digits: u64) -> [u8; 15]
    ensures { result ≡ generalized_text digits }
{
    let mut text = [b'Z'; 15];
    write_last_digits(&mut text[..14], digits);
    text
}

/// Appends a time: a UTCTime for the years 1950 to 2049, and a GeneralizedTime for all others
/// (RFC 5280, section 4.1.2.5). It has 21 octets at most.
pub fn put_time(alloc: Global, out: &mut Vec<u8>, at: Moment) -> Result<(), AllocError>
    ensures ok { OnOk result (out.new.items ≡ out.old.items ++ enc (time_tag at) (time_contents at)) }
    ensures most { OnOk result (length out.new.items ≤ length out.old.items + 21) }
    ensures err { OnErr result (out.new.items ≡ out.old.items) }
{
    let digits = at.digits();
    match digits / 10_000_000_000 {
        1950..=2049 => put_tlv(alloc, out, tags::UTC_TIME, &utc_contents(digits)),
        _ => put_tlv(
            alloc,
            out,
            tags::GENERALIZED_TIME,
            &generalized_contents(digits),
        ),
    }
}
