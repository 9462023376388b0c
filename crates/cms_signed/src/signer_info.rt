// SignerInfo (RFC 5652, section 5.3).
ghost use Rattle.std.specs.Prelude.{◌≡◌, is_some};
ghost use Rattle.der_core.specs.Reads.{Answers};
ghost use Rattle.der_core.specs.Shapes.{element, alone, anything, mapped};
ghost use Rattle.cms_signed.specs.SignedView.{attributed_view, signature_view, signer_view};
ghost use Rattle.cms_signed.specs.SignerReading.{sequence_of, signer_version_of, signature_of};
ghost use Rattle.cms_signed.specs.SignerReading.{attributed_of, signer_fields_of, signer_made};
ghost use Rattle.cms_signed.specs.SignerReading.{signer_of};

use crate::sid::read_sid;
use cert_fields::Sid;
use der_core::{Cursor, read_u128, tags};

// What a signer says.
#[derive(Clone, Copy, Debug)]
pub(crate) struct SignerInfo<'a> {
    // 1 or 3.
    pub version: u8,
    pub sid: Sid<'a>,
    // A whole element.
    pub digest_algorithm: &'a [u8],
    pub attributed: Attributed<'a>,
}

// The parts from the signed attributes on.
#[derive(Clone, Copy, Debug)]
pub(crate) struct Attributed<'a> {
    // The element [0], whole.
    pub signed_attributes: Option<&'a [u8]>,
    // A whole element.
    pub signature_algorithm: &'a [u8],
    pub signature: &'a [u8],
    // The contents of [1].
    pub unsigned_attributes: Option<&'a [u8]>,
}

// Whether there is exactly one SEQUENCE.
#[tactic(auto, unfolding(crate::specs::SignerReading::sequence_of))]
pub(crate) fn is_one_sequence(octets: &[u8]) -> bool
    ensures { result ≡ is_some (sequence_of octets.now) }
{
    let mut items = Cursor::new(octets);
    items.tagged(tags::SEQUENCE).is_some() && items.at_end()
}

// The version at the front.
#[tactic(auto, unfolding(crate::specs::SignerReading::signer_version_of))]
fn read_version(fields: &mut Cursor<'_>) -> Option<u8>
    ensures { Answers (λ n. (n, fields.new)) result (element 0x02 signer_version_of fields.old) }
{
    match read_u128(fields.tagged(tags::INTEGER)?)? {
        1 => Some(1),
        3 => Some(3),
        _ => None,
    }
}

// The contents of the unsigned attributes, and nothing after them.
fn read_unsigned<'a>(fields: &mut Cursor<'a>) -> Option<&'a [u8]>
    ensures { Answers (λ o. o.now) result (alone (element 0xA1 anything) fields.old) }
{
    let contents = fields.tagged(tags::CONSTRUCTED_1)?;
    if fields.at_end() {
        Some(contents)
    } else {
        None
    }
}

// The signature, and the contents of the unsigned attributes, where they are there.
#[tactic(auto, unfolding(crate::specs::SignerReading::signature_of))]
fn read_signature<'a>(fields: &mut Cursor<'a>) -> Option<(&'a [u8], Option<&'a [u8]>)>
    ensures { Answers signature_view result (signature_of fields.old) }
{
    let signature = fields.tagged(tags::OCTET_STRING)?;
    if fields.at_end() {
        return Some((signature, None));
    }
    Some((signature, Some(read_unsigned(fields)?)))
}

#[tactic(auto, unfolding(crate::specs::SignerReading::attributed_of))]
fn read_attributed<'a>(fields: &mut Cursor<'a>) -> Option<Attributed<'a>>
    ensures { Answers attributed_view result (attributed_of fields.old) }
{
    let mut signed_attributes = None;
    if fields.is_at(tags::CONSTRUCTED_0) {
        signed_attributes = Some(fields.whole(tags::CONSTRUCTED_0)?);
    }
    let signature_algorithm = fields.whole(tags::SEQUENCE)?;
    let (signature, unsigned_attributes) = read_signature(fields)?;
    Some(Attributed {
        signed_attributes,
        signature_algorithm,
        signature,
        unsigned_attributes,
    })
}

// The SignerInfo whose contents the octets are.
#[tactic(auto, unfolding(crate::specs::SignerReading::signer_fields_of))]
fn read_fields(contents: &[u8]) -> Option<SignerInfo<'_>>
    ensures { Answers signer_view result (mapped signer_made signer_fields_of contents.now) }
{
    let mut fields = Cursor::new(contents);
    let version = read_version(&mut fields)?;
    let Some(sid) = read_sid(&mut fields) else {
        return None;
    };
    let digest_algorithm = fields.whole(tags::SEQUENCE)?;
    let attributed = read_attributed(&mut fields)?;
    Some(SignerInfo {
        version,
        sid,
        digest_algorithm,
        attributed,
    })
}

// The one SignerInfo that the octets are.
#[tactic(auto, unfolding(crate::specs::SignerReading::signer_of))]
pub(crate) fn read_signer_info(octets: &[u8]) -> Option<SignerInfo<'_>>
    ensures { Answers signer_view result (signer_of octets.now) }
{
    let mut items = Cursor::new(octets);
    let contents = items.tagged(tags::SEQUENCE)?;
    if !items.at_end() {
        return None;
    }
    match read_fields(contents) {
        Some(signer) => Some(signer),
        None => None,
    }
}
