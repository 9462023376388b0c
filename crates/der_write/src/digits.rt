// Base 256 digits, written from the last one on into the end of a buffer.
ghost use Rattle.std.specs.Prelude.{◌≡◌, ◌≤◌, ◌<◌, ◌^◌, length, drop, get_or};
ghost use Rattle.std.specs.Int.Digits.{digits_of};
ghost use Rattle.der_core.specs.Element.{length_octets};
ghost use Rattle.der_core.specs.Number.{number_contents};

// Room for the sixteen digits of a number below 2^128, and for one octet before them.
pub(crate) const ROOM: usize = 17;

// Writes the digits of a number into the end of the buffer, and answers where they begin.
fn write_digits(buffer: &mut [u8], number: u128) -> usize
    requires { length buffer.old ≡ 17 }
    ensures length { length buffer.new ≡ 17 }
    ensures digits { drop result buffer.new ≡ digits_of 256 number }
    ensures low { 1 ≤ result }
    ensures high { result ≤ 17 }
{
    let mut start = ROOM;
    let mut left = number;
    while left > 0 {
        start -= 1;
        buffer[start] = (left % 256) as u8;
        left /= 256;
    }
    start
}

// Writes the contents of an INTEGER (X.690, section 8.3), and answers where they begin.
#[tactic(auto, unfolding(der_core::specs::Number::number_contents))]
pub(crate) fn write_number(buffer: &mut [u8], number: u128) -> usize
    requires { length buffer.old ≡ 17 }
    ensures contents { drop result buffer.new ≡ number_contents number }
    ensures high { result ≤ 17 }
{
    let start = write_digits(buffer, number);
    if start < ROOM && buffer[start] < 128 {
        return start;
    }
    buffer[start - 1] = 0;
    start - 1
}

// Writes the octets of a length (X.690, section 10.1), and answers where they begin.
#[tactic(auto, unfolding(der_core::specs::Element::length_octets))]
pub(crate) fn write_length(buffer: &mut [u8], size: u32) -> usize
    requires { length buffer.old ≡ 17 }
    ensures length { length buffer.new ≡ 17 }
    ensures octets { drop result buffer.new ≡ length_octets size }
    ensures low { 12 ≤ result }
    ensures high { result ≤ 17 }
{
    if size < 128 {
        buffer[ROOM - 1] = size as u8;
        return ROOM - 1;
    }
    let start = write_digits(buffer, size as u128);
    buffer[start - 1] = 128 + (ROOM - start) as u8;
    start - 1
}
