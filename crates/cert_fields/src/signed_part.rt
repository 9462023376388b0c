// The signed part of a certificate.
ghost use Rattle.std.specs.Prelude.{◌≡◌};
ghost use Rattle.der_core.specs.Reads.{Answers};
ghost use Rattle.cert_fields.specs.CertificateReading.{version_at, serial_at};
ghost use Rattle.der_core.specs.TimeReading.{time_at};
ghost use Rattle.cert_fields.specs.CertificateReading.{validity_at, bits_at, key_at};
ghost use Rattle.cert_fields.specs.CertificateReading.{extensions_of, maybe_extensions_of};
ghost use Rattle.cert_fields.specs.CertificateReading.{subject_parts_of, optional_parts_of};
ghost use Rattle.cert_fields.specs.CertificateReading.{unversioned_of, versioned_of};
ghost use Rattle.cert_fields.specs.CertificateReading.{signed_part_of};
ghost use Rattle.cert_fields.specs.View.{bits_view, part_view, optional_view, unversioned_view, signed_view};

use crate::Bits;
use der_core::{Cursor, Time, read_bits, read_int_octets, read_u128, tags};

/// The signed part of a certificate, TBSCertificate (RFC 5280, section 4.1.2). Names and algorithms
/// are whole elements, to be compared octet for octet.
#[derive(Clone, Copy, Debug)]
pub struct TbsCert<'a> {
    /// 0, 1 or 2 for v1, v2 or v3.
    pub version: u8,
    /// The contents of the INTEGER, 1 to 20 octets, of either sign.
    pub serial: &'a [u8],
    pub algorithm: &'a [u8],
    pub issuer: &'a [u8],
    /// The ends of the validity, both included.
    pub from: Time,
    pub to: Time,
    pub subject: &'a [u8],
    pub key_algorithm: &'a [u8],
    pub key: Bits<'a>,
    /// The contents of the unique identifiers, which aren't looked at.
    pub issuer_unique: Option<&'a [u8]>,
    pub subject_unique: Option<&'a [u8]>,
    /// The element that stands for the extensions, of any tag. In v3 alone.
    pub extensions: Option<&'a [u8]>,
}

// The version at the front, where one stands there.
#[tactic(auto, unfolding(crate::specs::CertificateReading::version_at))]
fn read_version(items: &mut Cursor<'_>) -> Option<u8>
    ensures { Answers (λ version. (version, items.new)) result (version_at items.old) }
{
    let mut inner = Cursor::new(items.tagged(tags::CONSTRUCTED_0)?);
    let version = read_u128(inner.tagged(tags::INTEGER)?)?;
    if inner.at_end() && version <= 2 {
        Some(version as u8)
    } else {
        None
    }
}

#[tactic(auto, unfolding(crate::specs::CertificateReading::serial_at))]
pub(crate) fn read_serial<'a>(items: &mut Cursor<'a>) -> Option<&'a [u8]>
    ensures { Answers (λ serial. (serial.now, items.new)) result (serial_at items.old) }
{
    let serial = read_int_octets(items.tagged(tags::INTEGER)?)?;
    if serial.len() <= 20 {
        Some(serial)
    } else {
        None
    }
}

#[tactic(auto, unfolding(der_core::specs::TimeReading::time_at))]
pub(crate) fn read_time_at(items: &mut Cursor<'_>) -> Option<Time>
    ensures { Answers (λ time. (time, items.new)) result (time_at items.old) }
{
    let (tag, contents, _) = items.next()?;
    Time::read(tag, contents)
}

#[tactic(auto, unfolding(crate::specs::CertificateReading::validity_at))]
fn read_validity(items: &mut Cursor<'_>) -> Option<(Time, Time)>
    ensures { Answers (λ ends. (ends, items.new)) result (validity_at items.old) }
{
    let mut ends = Cursor::new(items.tagged(tags::SEQUENCE)?);
    let from = read_time_at(&mut ends)?;
    let to = read_time_at(&mut ends)?;
    if ends.at_end() {
        Some((from, to))
    } else {
        None
    }
}

#[tactic(auto, unfolding(crate::specs::CertificateReading::bits_at))]
pub(crate) fn read_bits_at<'a>(items: &mut Cursor<'a>) -> Option<Bits<'a>>
    ensures { Answers (λ bits. (bits_view bits, items.new)) result (bits_at items.old) }
{
    let (unused, octets) = read_bits(items.tagged(tags::BIT_STRING)?)?;
    Some(Bits { unused, octets })
}

// The algorithm of a key, and the key.
#[tactic(auto, unfolding(crate::specs::CertificateReading::key_at))]
fn read_key<'a>(items: &mut Cursor<'a>) -> Option<(&'a [u8], Bits<'a>)>
    ensures { Answers (λ key. ((key.0.now, bits_view key.1), items.new)) result (key_at items.old) }
{
    let mut parts = Cursor::new(items.tagged(tags::SEQUENCE)?);
    let algorithm = parts.whole(tags::SEQUENCE)?;
    let key = read_bits_at(&mut parts)?;
    if parts.at_end() {
        Some((algorithm, key))
    } else {
        None
    }
}

// The element in [3], and nothing after it.
#[tactic(auto, unfolding(crate::specs::CertificateReading::extensions_of))]
fn read_extensions_part<'a>(rest: &mut Cursor<'a>) -> Option<&'a [u8]>
    ensures { Answers (λ part. part.now) result (extensions_of rest.old) }
{
    let mut inner = Cursor::new(rest.tagged(tags::CONSTRUCTED_3)?);
    let (_, _, part) = inner.next()?;
    if inner.at_end() && rest.at_end() {
        Some(part)
    } else {
        None
    }
}

// The extensions, where any octets are left.
#[tactic(auto, unfolding(crate::specs::CertificateReading::maybe_extensions_of))]
fn read_maybe_extensions<'a>(rest: &mut Cursor<'a>) -> Option<Option<&'a [u8]>>
    ensures { Answers part_view result (maybe_extensions_of rest.old) }
{
    if rest.at_end() {
        return Some(None);
    }
    Some(Some(read_extensions_part(rest)?))
}

// The subject's unique identifier and the extensions, where they are there.
#[tactic(auto, unfolding(crate::specs::CertificateReading::subject_parts_of))]
fn read_subject_parts<'a>(rest: &mut Cursor<'a>) -> Option<(Option<&'a [u8]>, Option<&'a [u8]>)>
    ensures { Answers (λ parts. (part_view parts.0, part_view parts.1)) result
        (subject_parts_of rest.old) }
{
    let mut unique = None;
    if rest.is_at(tags::PRIMITIVE_2) {
        unique = Some(rest.tagged(tags::PRIMITIVE_2)?);
    }
    Some((unique, read_maybe_extensions(rest)?))
}

// The unique identifiers and the extensions, where they are there.
#[derive(Clone, Copy)]
struct Parts<'a> {
    issuer_unique: Option<&'a [u8]>,
    subject_unique: Option<&'a [u8]>,
    extensions: Option<&'a [u8]>,
}

#[tactic(auto, unfolding(crate::specs::CertificateReading::optional_parts_of))]
fn read_optional<'a>(rest: &mut Cursor<'a>) -> Option<Parts<'a>>
    ensures { Answers optional_view result (optional_parts_of rest.old) }
{
    let mut issuer_unique = None;
    if rest.is_at(tags::PRIMITIVE_1) {
        issuer_unique = Some(rest.tagged(tags::PRIMITIVE_1)?);
    }
    let (subject_unique, extensions) = read_subject_parts(rest)?;
    Some(Parts {
        issuer_unique,
        subject_unique,
        extensions,
    })
}

// All parts but the version.
#[derive(Clone, Copy)]
struct UnversionedParts<'a> {
    serial: &'a [u8],
    algorithm: &'a [u8],
    issuer: &'a [u8],
    validity: (Time, Time),
    subject: &'a [u8],
    key_algorithm: &'a [u8],
    key: Bits<'a>,
    parts: Parts<'a>,
}

#[tactic(auto, unfolding(crate::specs::CertificateReading::unversioned_of))]
fn read_unversioned<'a>(rest: &mut Cursor<'a>) -> Option<UnversionedParts<'a>>
    ensures { Answers unversioned_view result (unversioned_of rest.old) }
{
    let serial = read_serial(rest)?;
    let algorithm = rest.whole(tags::SEQUENCE)?;
    let issuer = rest.whole(tags::SEQUENCE)?;
    let validity = read_validity(rest)?;
    let subject = rest.whole(tags::SEQUENCE)?;
    let (key_algorithm, key) = read_key(rest)?;
    let parts = read_optional(rest)?;
    Some(UnversionedParts {
        serial,
        algorithm,
        issuer,
        validity,
        subject,
        key_algorithm,
        key,
        parts,
    })
}

// The version, where one stands there that isn't the DEFAULT, and the other parts.
#[tactic(auto, unfolding(crate::specs::CertificateReading::versioned_of))]
fn read_versioned<'a>(contents: &'a [u8]) -> Option<(u8, UnversionedParts<'a>)>
    ensures { Answers (λ x. (x.0, unversioned_view x.1)) result (versioned_of contents.now) }
{
    let mut rest = Cursor::new(contents);
    let mut version = 0;
    if rest.is_at(tags::CONSTRUCTED_0) {
        version = read_version(&mut rest)?;
        if version == 0 {
            return None;
        }
    }
    let Some(parts) = read_unversioned(&mut rest) else {
        return None;
    };
    Some((version, parts))
}

// The signed part whose contents the octets are.
#[tactic(auto, unfolding(crate::specs::CertificateReading::signed_part_of))]
pub(crate) fn read_signed_part(contents: &[u8]) -> Option<TbsCert<'_>>
    ensures { Answers signed_view result (signed_part_of contents.now) }
{
    let Some((version, parts)) = read_versioned(contents) else {
        return None;
    };
    if parts.parts.extensions.is_some() && version != 2 {
        return None;
    }
    Some(TbsCert {
        version,
        serial: parts.serial,
        algorithm: parts.algorithm,
        issuer: parts.issuer,
        from: parts.validity.0,
        to: parts.validity.1,
        subject: parts.subject,
        key_algorithm: parts.key_algorithm,
        key: parts.key,
        issuer_unique: parts.parts.issuer_unique,
        subject_unique: parts.parts.subject_unique,
        extensions: parts.parts.extensions,
    })
}
