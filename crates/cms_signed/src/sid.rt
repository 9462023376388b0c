// The identifier of a signer.
ghost use Rattle.der_core.specs.Reads.{Answers};
ghost use Rattle.cert_fields.specs.Sid.{sid_view};
ghost use Rattle.cms_signed.specs.SignerReading.{serial_of, sid_at};

use cert_fields::Sid;
use der_core::{Cursor, read_int_octets, tags};

// The name of an issuer and a serial number.
#[tactic(auto, unfolding(crate::specs::SignerReading::serial_of))]
fn read_serial(contents: &[u8]) -> Option<(&[u8], &[u8])>
    ensures { Answers (λ x. (x.0.now, x.1.now)) result (serial_of contents.now) }
{
    let mut parts = Cursor::new(contents);
    let issuer = parts.whole(tags::SEQUENCE)?;
    let serial = read_int_octets(parts.tagged(tags::INTEGER)?)?;
    if parts.at_end() {
        Some((issuer, serial))
    } else {
        None
    }
}

// The identifier of a signer at the front.
#[tactic(auto, unfolding(crate::specs::SignerReading::sid_at))]
pub(crate) fn read_sid<'a>(fields: &mut Cursor<'a>) -> Option<Sid<'a>>
    ensures { Answers (λ sid. (sid_view sid, fields.new)) result (sid_at fields.old) }
{
    if fields.is_at(tags::SEQUENCE) {
        let (issuer, serial) = read_serial(fields.tagged(tags::SEQUENCE)?)?;
        Some(Sid::Serial { issuer, serial })
    } else {
        Some(Sid::KeyId(fields.tagged(tags::PRIMITIVE_0)?))
    }
}
