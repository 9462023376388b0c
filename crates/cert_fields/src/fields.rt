// Fields of a certificate that others have too, read at the front of octets.
ghost use Rattle.std.specs.Prelude.{◌++◌, ℕ, List, option_map};
ghost use Rattle.der_core.specs.BitString.{bits_contents, IsBits};
ghost use Rattle.der_core.specs.Element.{enc, AreOctets, HasRoom};
ghost use Rattle.der_core.specs.Reads.{Reads, Answers};
ghost use Rattle.der_core.specs.Time.{IsTime, time_text};
ghost use Rattle.der_core.specs.TimeReading.{time_at};
ghost use Rattle.cert_fields.specs.Certificate.{BitString, bits_text, IsSerialNumber};
ghost use Rattle.cert_fields.specs.CertificateReading.{serial_at, bits_at};
ghost use Rattle.cert_fields.specs.View.{bits_view};

use crate::Bits;
use crate::signed_part::{read_bits_at, read_serial, read_time_at};
use der_core::{Cursor, Time};

/// Passes the serial number at the front, of 1 to 20 octets and of either sign, and gives the
/// contents of its INTEGER (RFC 5280, section 4.1.2.2). None exactly where no text of one stands
/// there, and then no clause says how far the cursor has come.
pub fn read_serial_number<'a>(items: &mut Cursor<'a>) -> Option<&'a [u8]>
    ensures spelled { AreOctets items.old
        → Reads {V = List ℕ × List ℕ} (λ x. enc 0x02 x.0 ++ x.1) (λ x. IsSerialNumber x.0)
        items.old (option_map (λ serial. (serial.now, items.new)) result) }
    ensures exact { Answers (λ serial. (serial.now, items.new)) result (serial_at items.old) }
{
    read_serial(items)
}

/// Passes the time at the front, in either form (RFC 5280, section 4.1.2.5). None exactly where no
/// text of one stands there, and then no clause says how far the cursor has come.
pub fn read_time(items: &mut Cursor<'_>) -> Option<Time>
    ensures spelled { AreOctets items.old
        → Reads {V = Time × List ℕ} (λ x. time_text x.0 ++ x.1) (λ x. IsTime x.0)
        items.old (option_map (λ time. (time, items.new)) result) }
    ensures exact { Answers (λ time. (time, items.new)) result (time_at items.old) }
{
    read_time_at(items)
}

/// Passes the BIT STRING at the front, as the key and the signature of a certificate are (X.690,
/// section 8.6). None exactly where no text of one stands there, and then no clause says how far the
/// cursor has come.
pub fn read_bit_string<'a>(items: &mut Cursor<'a>) -> Option<Bits<'a>>
    ensures spelled { AreOctets items.old
        → Reads {V = BitString × List ℕ} (λ x. bits_text x.0 ++ x.1)
        (λ x. IsBits x.0 × HasRoom (bits_contents x.0))
        items.old (option_map (λ bits. (bits_view bits, items.new)) result) }
    ensures exact { Answers (λ bits. (bits_view bits, items.new)) result (bits_at items.old) }
{
    read_bits_at(items)
}
